// Another maker's log checked against our own verdicts (document 02, request 12): verdict by verdict, through room for the
// longest one.
#![tactic(auto)]

ghost use Rattle.std.specs.Prelude.{◌≡◌};
ghost use Rattle.image.specs.Reading.{read_of};
ghost use Rattle.log_check.specs.Check.{ended_at, checked_of};
ghost use Rattle.log_check.specs.Image.{answered_from};

use image::LoadError;
use ledger::Ledger;
use replay::Front;
use verdicts::LONGEST_VERDICT;

// What is found where no record is judged any more, with so many bytes of the log left.
fn ended(front: Front, left: usize, index: usize) -> Option<usize>
    ensures { result ≡ ended_at front left index }
{
    match front {
        Front::End if left == 0 => None,
        _ => Some(index),
    }
}

// None says that the log agrees with the verdicts of the trace's records, each on the ledger that the one before it left; else
// it is the index of the first record whose verdict differs, is missing or is one too many, or where either side is torn. Each
// verdict takes the room of the one before.
pub fn check_log(mut ledger: Ledger, trace: &[u8], log: &[u8]) -> Option<usize>
    ensures { result ≡ checked_of ledger trace.now log.now }
{
    let mut verdict = [0; LONGEST_VERDICT];
    let mut read = 0;
    let mut agreed = 0;
    let mut index = 0;
    loop {
        let stepped = replay::step_record(ledger, &trace[read..], &mut verdict);
        let Front::Judged {
            read: n,
            written: k,
        } = stepped.front
        else {
            return ended(stepped.front, log.len() - agreed, index);
        };
        if !log[agreed..].starts_with(&verdict[..k]) {
            return Some(index);
        }
        ledger = stepped.ledger;
        read += n;
        agreed += k;
        index += 1;
    }
}

// The same from the ledger of an image, if that is not refused.
pub fn check_log_from(start: &[u8], trace: &[u8], log: &[u8]) -> Result<Option<usize>, LoadError>
    ensures { result ≡ answered_from (read_of start.now) trace.now log.now }
{
    let ledger = image::read_image(start)?;
    Ok(check_log(ledger, trace, log))
}

// Records judged on a ledger: the one at the front of a trace, and a trace whole (document 01, "Records and names").
#![tactic(auto)]

ghost use Rattle.std.specs.Prelude.{◌≡◌};
ghost use Rattle.ledger.specs.Step.{judged};
ghost use Rattle.records.specs.Steps.{decode_step};
ghost use Rattle.replay.specs.Front.{record_step, front_step};
ghost use Rattle.replay.specs.Replay.{ending_at, replay_of};

use fields::Next;
use ledger::{Ledger, StepAnswer};

// What becomes of the front of a trace.
// stays: four states; as a Result the end, which is no failure, would be an error.
#[derive(Clone, Copy, PartialEq, Eq)]
pub enum Front {
    // nothing is left
    End,
    // some bytes, but no whole record
    Torn,
    // the verdict is longer than the room
    Full,
    // the bytes read and written
    Judged { read: usize, written: usize },
}

// What becomes of it, and the next ledger.
#[derive(Clone, Copy)]
pub struct Stepped {
    pub front: Front,
    pub ledger: Ledger,
}

// How a run ends.
#[derive(Clone, Copy, PartialEq, Eq)]
pub enum Ending {
    Whole,
    Torn,
    Full,
}

// How a run ended, the last ledger, and the bytes read and written.
#[derive(Clone, Copy)]
pub struct Ran {
    pub ending: Ending,
    pub ledger: Ledger,
    pub read: usize,
    pub written: usize,
}

// The verdict and the next ledger of a record.
fn answer_to(ledger: Ledger, bytes: &[u8]) -> StepAnswer
    ensures { result ≡ judged ledger (decode_step bytes.now) }
{
    match records::read_step(bytes) {
        Some(step) => ledger.step(step),
        None => ledger.refuse_unreadable(),
    }
}

// Judges a record; its verdict goes to the start of `out`.
fn judge_record(before: Ledger, bytes: &[u8], out: &mut [u8]) -> Stepped
    ensures { record_step before bytes.now out.old ≡ record { answer = result; buffer = out.new } }
{
    let answer = answer_to(before, bytes);
    // a step's verdict is never malformed: it has no room
    let Ok(written) = verdicts::write_verdict(answer.verdict, out) else {
        return Stepped {
            front: Front::Full,
            ledger: before,
        };
    };
    Stepped {
        front: Front::Judged {
            read: bytes.len(),
            written,
        },
        ledger: answer.ledger,
    }
}

// The step on bytes: judges the record at the front of the trace. Its verdict goes to the start of `out`, and the bytes
// beyond stay. At the end, torn and full the ledger and `out` are as they were.
pub fn step_record(ledger: Ledger, trace: &[u8], out: &mut [u8]) -> Stepped
    ensures { front_step ledger trace.now out.old ≡ record { answer = result; buffer = out.new } }
{
    match fields::next_record(trace) {
        Next::End => Stepped {
            front: Front::End,
            ledger,
        },
        Next::Torn => Stepped {
            front: Front::Torn,
            ledger,
        },
        Next::Record(n) => judge_record(ledger, &trace[..n], out),
    }
}

// How a run ends by what became of the front. A judged one ends no run.
fn ending_at(front: Front) -> Ending
    ensures { result ≡ ending_at front }
{
    match front {
        Front::End | Front::Judged { .. } => Ending::Whole,
        Front::Torn => Ending::Torn,
        Front::Full => Ending::Full,
    }
}

// The run: goes on past refusals; each verdict is written directly behind the one before, and the bytes beyond stay.
pub fn run(ledger: Ledger, trace: &[u8], out: &mut [u8]) -> Ran
    ensures { replay_of ledger trace.now out.old ≡ record { answer = result; buffer = out.new } }
{
    let mut ledger = ledger;
    let mut read = 0;
    let mut written = 0;
    loop {
        let stepped = step_record(ledger, &trace[read..], &mut out[written..]);
        ledger = stepped.ledger;
        let Front::Judged {
            read: n,
            written: k,
        } = stepped.front
        else {
            return Ran {
                ending: ending_at(stepped.front),
                ledger,
                read,
                written,
            };
        };
        read += n;
        written += k;
    }
}

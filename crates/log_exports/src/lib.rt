// The check of a log for C: bytes and numbers, no `requires`. include/cuudhaqil_log.h says what the call promises.
#![tactic(auto)]

ghost use Rattle.std.specs.Prelude.{◌≡◌};
ghost use Rattle.log_exports.specs.Calls.{found_of, check_log};

use exports::NO_PLACE;
use image::LoadError;
use ledger::Ledger;

// stays: numbers, as each call of the C interface answers with one.
const AGREE: u64 = 0;

const DIFFERS: u64 = 4;

// From the ledger of the image, or from the fresh one where it has no bytes.
#[tactic(auto, using(rules::proofs::Typed::length_none))]
fn found(image: &[u8], trace: &[u8], log: &[u8]) -> Result<Option<usize>, LoadError>
    ensures { result ≡ found_of image.now trace.now log.now }
{
    if image.is_empty() {
        return Ok(log_check::check_log(Ledger::fresh(), trace, log));
    }
    log_check::check_log_from(image, trace, log)
}

// Says whether the log agrees with the verdicts of the trace's records; the index of the first disagreement goes to `at`.
#[tactic(auto, using(rules::proofs::Typed::length_none), unfolding(crate::specs::Calls::check_log))]
pub fn cuudhaqil_check_log(image: &[u8], trace: &[u8], log: &[u8], at: &mut [u64]) -> u64
    ensures { check_log image.now trace.now log.now at.old ≡ record { answer = result; left = at.new } }
{
    if at.is_empty() {
        return NO_PLACE;
    }
    match found(image, trace, log) {
        Ok(None) => AGREE,
        Ok(Some(index)) => {
            at[0] = index as u64;
            DIFFERS
        }
        Err(error) => error.number(),
    }
}

// A trace run from C: on the fresh ledger, or on one that is lent as numbers.
ghost use Rattle.std.specs.Prelude.{◌≡◌, ◌≤◌, length};
ghost use Rattle.replay.specs.Replay.{ending_code};
ghost use Rattle.exports.specs.Runs.{counts_of, run, run_on};

use crate::NO_PLACE;
use ledger::Ledger;
use ledger_numbers::LEDGER;
use replay::{Ending, Ran};

// The bytes read, and the bytes written.
const COUNTS: usize = 2;

// stays: an ending is a number, as the C interface has no enum.
fn ending_code(ending: Ending) -> u64
    ensures { result ≡ ending_code ending }
{
    match ending {
        Ending::Whole => 0,
        Ending::Torn => 1,
        Ending::Full => 2,
    }
}

// How the run ended, with its counts over the start of the others.
fn tell(ran: Ran, counts: &mut [u64]) -> u64
    requires { 2 ≤ length counts.old }
    ensures { (result ≡ ending_code ran.ending) × (counts.new ≡ counts_of ran counts.old) }
{
    let from: [u64; COUNTS] = [ran.read as u64, ran.written as u64];
    ledger_numbers::fill(&from, counts);
    ending_code(ran.ending)
}

// The run over the trace on the fresh ledger.
#[tactic(auto, unfolding(crate::specs::Runs::run))]
pub fn cuudhaqil_run(trace: &[u8], out: &mut [u8], counts: &mut [u64]) -> u64
    ensures { run trace.now out.old counts.old ≡ record { answer = result; out = out.new; counts = counts.new } }
{
    if counts.len() < COUNTS {
        return NO_PLACE;
    }
    let ran = replay::run(Ledger::fresh(), trace, out);
    tell(ran, counts)
}

// The run on the ledger that the numbers say, which then are the next ledger's.
#[tactic(auto, unfolding(crate::specs::Runs::run_on))]
pub fn cuudhaqil_run_on(ledger: &mut [u64], trace: &[u8], out: &mut [u8], counts: &mut [u64]) -> u64
    ensures { run_on ledger.old trace.now out.old counts.old ≡ record { answer = result; ledger = ledger.new; out = out.new; counts = counts.new } }
{
    if ledger.len() < LEDGER || counts.len() < COUNTS {
        return NO_PLACE;
    }
    let ran = replay::run(ledger_numbers::ledger_from(ledger), trace, out);
    ledger_numbers::lay_back(ran.ledger, ledger);
    tell(ran, counts)
}

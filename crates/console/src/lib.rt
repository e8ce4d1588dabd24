// The program `judge` (document 01, "Records and names"): runs standard input on the fresh ledger, prints each verdict's
// code on a line, then the bytes unread.
#![tactic(auto)]

ghost use Rattle.std.specs.Prelude.{◌≡◌, length};
ghost use Rattle.replay.specs.Replay.{cut};
ghost use Rattle.console.specs.Code.{ShowsCode};

use ledger::Ledger;
use replay::Front;
use std::io;
use terminal::{run_on_input, say_line};
use verdicts::LONGEST_VERDICT;

// A verdict's code stands behind the head of the record and that of its first field, a tag and a two-byte length each.
const CODE_AT: usize = 6;

fn say_code(rt: &impl Print, code: u8) {
    say_line(rt, b"", u64::from(code));
}

// The code of the verdict whose record these bytes start with.
#[tactic(auto, using(crate::proofs::Codes::code_shown))]
fn code_of(verdict: &[u8; LONGEST_VERDICT]) -> u8
    ensures { ShowsCode verdict.now result }
{
    verdict[CODE_AT]
}

// Prints the code of each record's verdict, and answers the bytes unread. Each verdict takes the room of the one before.
fn say_codes(rt: &impl Print, trace: &[u8]) -> usize
    ensures { result ≡ length (cut trace.now).rest }
{
    let mut ledger = Ledger::fresh();
    let mut verdict = [0; LONGEST_VERDICT];
    let mut read = 0;
    loop {
        let stepped = replay::step_record(ledger, &trace[read..], &mut verdict);
        let Front::Judged { read: n, .. } = stepped.front else {
            return trace.len() - read;
        };
        ledger = stepped.ledger;
        read += n;
        say_code(rt, code_of(&verdict));
    }
}

fn judge_trace(rt: &impl Print, trace: &[u8]) {
    let unread = say_codes(rt, trace);
    say_line(rt, b"rest ", unread as u64);
}

// Judges standard input.
pub fn judge(rt: &(impl io::Input + Print), errors: &impl Print) {
    run_on_input(
        rt,
        errors,
        b"judge: cannot read standard input\n",
        |trace| judge_trace(rt, trace),
    );
}

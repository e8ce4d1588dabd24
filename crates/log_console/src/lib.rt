// The program `check_log` (document 02, request 12): reads the files `trace` and `log` of its folder, and prints whether the
// log agrees with the trace's run from fresh.
#![tactic(auto)]

use ledger::Ledger;
use std::fs::File;
use std::io::Read;
use std::rt::Files;
use terminal::{say, say_error, say_line};

// The most bytes that a file has.
const LONGEST: usize = 32768;

// A byte more: a file that fills it is too long.
const ROOM: usize = LONGEST + 1;

fn say_difference(rt: &impl Print, difference: Option<usize>) {
    match difference {
        None => say(rt, b"agree\n"),
        Some(index) => say_line(rt, b"differs at ", index as u64),
    }
}

// A file that fills its room is too long, and nothing is checked then. Where a read fails standard output stays empty.
fn check_open(
    rt: &impl Print,
    errors: &impl Print,
    trace_file: &mut impl Read,
    log_file: &mut impl Read,
) {
    let mut trace = [0; ROOM];
    let mut log = [0; ROOM];
    let Ok(n) = terminal::read_open(trace_file, &mut trace) else {
        say_error(errors, b"check_log: cannot read the trace\n");
        return;
    };
    let Ok(k) = terminal::read_open(log_file, &mut log) else {
        say_error(errors, b"check_log: cannot read the log\n");
        return;
    };
    if n < ROOM && k < ROOM {
        say_difference(
            rt,
            log_check::check_log(Ledger::fresh(), &trace[..n], &log[..k]),
        );
    } else {
        say(rt, b"too long\n");
    }
}

// A file that is not there, or cannot be opened, is told before all else.
pub fn check(rt: &(impl Files + Print), errors: &impl Print) {
    match (File::open(rt, "trace"), File::open(rt, "log")) {
        (Ok(mut trace_file), Ok(mut log_file)) => check_open(
            rt,
            errors,
            &mut trace_file,
            &mut log_file,
        ),
        _ => say(rt, b"no file\n"),
    }
}

// The program `list_bucket` (document 02, request 5): takes standard input as a listing of the store's bucket, and prints
// what it says.
#![tactic(auto)]

use listing::Listing;
use std::io;
use terminal::{run_on_input, say, say_line};

// A line of a text and a number, or the line that says there is none.
fn say_optional(rt: &impl Print, text: &[u8], n: Option<u64>, none: &[u8]) {
    match n {
        Some(n) => say_line(rt, text, n),
        None => say(rt, none),
    }
}

fn say_listing(rt: &impl Print, said: Listing) {
    say_optional(rt, b"manifest ", said.manifest, b"no manifest\n");
    say_line(rt, b"objects ", said.objects);
    say_optional(rt, b"bad ", said.bad, b"whole\n");
}

// Lists standard input.
pub fn list(rt: &(impl io::Input + Print), errors: &impl Print) {
    run_on_input(
        rt,
        errors,
        b"list_bucket: cannot read standard input\n",
        |bytes| say_listing(rt, listing::read_listing(bytes)),
    );
}

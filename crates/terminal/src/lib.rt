// Standard input and output, as the programs use them.
#![tactic(auto)]

ghost use Rattle.terminal.specs.Reading.{FitsRoom, HasRead};

use std::io;
use std::io::Read;

// The most bytes of standard input that a program takes.
const LONGEST: usize = 65536;

// A byte more: an input that fills it is too long.
pub const ROOM: usize = LONGEST + 1;

// A write that fails is passed over.
pub fn say(rt: &impl Print, text: &[u8]) {
    let _ = rt.write_all(text);
}

pub fn say_number(rt: &impl Print, n: u64) {
    let _ = rt.print(n);
}

// A line of a text and a number.
pub fn say_line(rt: &impl Print, text: &[u8], n: u64) {
    say(rt, text);
    say_number(rt, n);
    say(rt, b"\n");
}

// An error goes to standard error, so that standard output has only what the input says.
pub fn say_error(errors: &impl Print, text: &[u8]) {
    say(errors, text);
}

// Reads a file that is open until it ends or the room is full, and answers how many bytes it put at the room's start; or
// that a read failed, when nobody knows what the file has.
pub fn read_open<R: Read>(file: &mut R, room: &mut [u8]) -> io::Result<usize>
    ensures fits { FitsRoom result room.new }
    ensures bytes { HasRead result (R.remaining file.old) (R.remaining file.new) room.new }
{
    let mut done = 0;
    // stays: a rule of the project, no heap: `read_to_end` takes a `Vec`
    while done < room.len() {
        let n = file.read(&mut room[done..])?;
        if n == 0 {
            break;
        }
        done += n;
    }
    Ok(done)
}

pub fn read_input(rt: &impl io::Input, room: &mut [u8]) -> io::Result<usize>
    ensures { FitsRoom result room.new }
{
    read_open(&mut rt.reader(), room)
}

// Hands standard input, at most 65,536 bytes, to `run`. An input that fills the room is too long, and where a read fails
// standard output stays empty: nothing is run then.
pub fn run_on_input<F: FnOnce(&[u8])>(
    rt: &(impl io::Input + Print),
    errors: &impl Print,
    failed: &[u8],
    run: F,
)
    requires { F.IsAlwaysCallable run }
{
    let mut room = [0; ROOM];
    match read_input(rt, &mut room) {
        Ok(n) if n < room.len() => run(&room[..n]),
        Ok(_) => say(rt, b"too long\n"),
        Err(_) => say_error(errors, failed),
    }
}

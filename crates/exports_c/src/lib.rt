// The calls of crate exports for C: libexports.a. A crate is a library or an archive for C, not both, so each export here calls
// the library's function of its name and promises what it promises. include/cuudhaqil.h says it in words.
#![tactic(auto)]

ghost use Rattle.std.specs.Prelude.{◌≡◌};
ghost use Rattle.exports.specs.Codec.{read_step, read_verdict, write_step, write_verdict};
ghost use Rattle.exports.specs.Ledgers.{current, fresh, soundness, step, version};
ghost use Rattle.exports.specs.Names.{read_name, write_name};
ghost use Rattle.exports.specs.Runs.{run, run_on};
ghost use Rattle.fields.specs.Fields.{next_code, next_of};

// Reads all the bytes as one name: its kind, and its number in number[0].
#[unsafe(no_mangle)]
pub extern "C" fn cuudhaqil_read_name(name: &[u8], number: &mut [u64]) -> u64
    ensures { read_name name.now number.old ≡ record { answer = result; left = number.new } }
{
    exports::names::cuudhaqil_read_name(name, number)
}

// Writes the name of that kind and number at the start of `out`.
#[unsafe(no_mangle)]
pub extern "C" fn cuudhaqil_write_name(kind: u64, value: u64, out: &mut [u8]) -> u64
    ensures { write_name kind value out.old ≡ record { answer = result; left = out.new } }
{
    exports::names::cuudhaqil_write_name(kind, value, out)
}

// The next record of a trace: 0 at its end, 1 if it is torn, else its length.
#[unsafe(no_mangle)]
pub extern "C" fn cuudhaqil_next_record(trace: &[u8]) -> u64
    ensures { result ≡ next_code (next_of trace.now) }
{
    exports::codec::cuudhaqil_next_record(trace)
}

// Reads all the bytes as one step record: its numbers and its list's places.
#[unsafe(no_mangle)]
pub extern "C" fn cuudhaqil_read_step(bytes: &[u8], numbers: &mut [u64], list: &mut [u64]) -> u64
    ensures { read_step bytes.now numbers.old list.old ≡ record { answer = result; numbers = numbers.new; list = list.new } }
{
    exports::codec::cuudhaqil_read_step(bytes, numbers, list)
}

// Writes the record of a step, said as the reader says it, at the start of `out`.
#[unsafe(no_mangle)]
pub extern "C" fn cuudhaqil_write_step(numbers: &[u64], list: &[u64], out: &mut [u8]) -> u64
    ensures { write_step numbers.now list.now out.old ≡ record { answer = result; left = out.new } }
{
    exports::codec::cuudhaqil_write_step(numbers, list, out)
}

// Reads all the bytes as one verdict record: its numbers and its list's places.
#[unsafe(no_mangle)]
pub extern "C" fn cuudhaqil_read_verdict(bytes: &[u8], numbers: &mut [u64], list: &mut [u64]) -> u64
    ensures { read_verdict bytes.now numbers.old list.old ≡ record { answer = result; numbers = numbers.new; list = list.new } }
{
    exports::codec::cuudhaqil_read_verdict(bytes, numbers, list)
}

// Writes the record of a verdict, said as the reader says it, at the start of `out`.
#[unsafe(no_mangle)]
pub extern "C" fn cuudhaqil_write_verdict(numbers: &[u64], list: &[u64], out: &mut [u8]) -> u64
    ensures { write_verdict numbers.now list.now out.old ≡ record { answer = result; left = out.new } }
{
    exports::codec::cuudhaqil_write_verdict(numbers, list, out)
}

// The fresh ledger, as numbers.
#[unsafe(no_mangle)]
pub extern "C" fn cuudhaqil_fresh(numbers: &mut [u64]) -> u64
    ensures { fresh numbers.old ≡ record { answer = result; left = numbers.new } }
{
    exports::ledgers::cuudhaqil_fresh(numbers)
}

// Whether the ledger is sound: 0, or row 1's number.
#[unsafe(no_mangle)]
pub extern "C" fn cuudhaqil_is_sound(ledger: &[u64]) -> u64
    ensures { result ≡ soundness ledger.now }
{
    exports::ledgers::cuudhaqil_is_sound(ledger)
}

// The current manifest's number and both epochs, of a sound ledger.
#[unsafe(no_mangle)]
pub extern "C" fn cuudhaqil_current(ledger: &[u64], numbers: &mut [u64]) -> u64
    ensures { current ledger.now numbers.old ≡ record { answer = result; left = numbers.new } }
{
    exports::ledgers::cuudhaqil_current(ledger, numbers)
}

// The version of the calls.
#[unsafe(no_mangle)]
pub extern "C" fn cuudhaqil_version() -> u64
    ensures { result ≡ version }
{
    exports::ledgers::cuudhaqil_version()
}

// One step on any ledger: the next ledger in its place, the verdict's numbers and its list.
#[unsafe(no_mangle)]
pub extern "C" fn cuudhaqil_step(
    ledger: &mut [u64],
    numbers: &[u64],
    list: &[u64],
    verdict: &mut [u64],
    objects: &mut [u64],
) -> u64
    ensures { step ledger.old numbers.now list.now verdict.old objects.old ≡ record { answer = result; ledger = ledger.new; verdict = verdict.new; objects = objects.new } }
{
    exports::ledgers::cuudhaqil_step(ledger, numbers, list, verdict, objects)
}

// The run over the trace on the fresh ledger.
#[unsafe(no_mangle)]
pub extern "C" fn cuudhaqil_run(trace: &[u8], out: &mut [u8], counts: &mut [u64]) -> u64
    ensures { run trace.now out.old counts.old ≡ record { answer = result; out = out.new; counts = counts.new } }
{
    exports::runs::cuudhaqil_run(trace, out, counts)
}

// The run on the ledger that the numbers say, which then are the next ledger's.
#[unsafe(no_mangle)]
pub extern "C" fn cuudhaqil_run_on(
    ledger: &mut [u64],
    trace: &[u8],
    out: &mut [u8],
    counts: &mut [u64],
) -> u64
    ensures { run_on ledger.old trace.now out.old counts.old ≡ record { answer = result; ledger = ledger.new; out = out.new; counts = counts.new } }
{
    exports::runs::cuudhaqil_run_on(ledger, trace, out, counts)
}

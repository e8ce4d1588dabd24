// Store names (document 01, "Records and names"), for C.
ghost use Rattle.std.specs.Prelude.{◌≡◌};
ghost use Rattle.exports.specs.Names.{read_name, write_name};

use crate::codec::write_code;
use crate::{MALFORMED, NO_PLACE};
use store_names::Name;

// A name's kind.
// stays: a kind is a number, as the C interface has no enum.
const MANIFEST: u64 = 0;

const OBJECT: u64 = 1;

// Reads all the bytes as one name: its kind, and its number in number[0].
#[tactic(auto, unfolding(crate::specs::Names::read_name))]
pub fn cuudhaqil_read_name(name: &[u8], number: &mut [u64]) -> u64
    ensures { read_name name.now number.old ≡ record { answer = result; left = number.new } }
{
    if number.is_empty() {
        return NO_PLACE;
    }
    let Some(v) = store_names::read_name(name) else {
        return MALFORMED;
    };
    match v {
        Name::Manifest(n) => {
            number[0] = n;
            MANIFEST
        }
        Name::Object(n) => {
            number[0] = n;
            OBJECT
        }
    }
}

// Writes the name of that kind and number at the start of `out`.
#[tactic(auto, unfolding(crate::specs::Names::write_name))]
pub fn cuudhaqil_write_name(kind: u64, value: u64, out: &mut [u8]) -> u64
    ensures { write_name kind value out.old ≡ record { answer = result; left = out.new } }
{
    if kind == MANIFEST {
        return write_code(store_names::write_name(Name::Manifest(value), out));
    }
    if kind == OBJECT {
        return write_code(store_names::write_name(Name::Object(value), out));
    }
    MALFORMED
}

// The reader's walk over the inner fields of a record, in place.
ghost use Rattle.std.specs.Prelude.{◌≡◌, ◌+◌, ◌*◌, ◌≤◌, length, IfSome};
ghost use Rattle.records.specs.Walk.{walk as walkOver};
ghost use Rattle.records.specs.Found.{fields_in, is_whole, held, first_list, found_by, placed_all};

use crate::{FIELDS, Field, Fields, Held, Place, Walk};
use fields::Next;

// Whether the bytes are one field and nothing behind it.
#[tactic(auto, using(crate::proofs::Fronts::whole_next_lem))]
pub fn is_whole(bytes: &[u8]) -> bool
    ensures { result ≡ is_whole bytes.now }
{
    match fields::next_record(bytes) {
        Next::End | Next::Torn => false,
        Next::Record(n) => n == bytes.len(),
    }
}

// The field at the front of the bytes, which has to be this one.
#[tactic(auto, unfolding(crate::specs::Found::held))]
fn read_field(bytes: &[u8], f: Field) -> Option<Held>
    ensures { result ≡ held f bytes.now }
{
    let len = fields::read_head(bytes, f.tag)?;
    if f.width == 0 {
        if len % 8 != 0 {
            return None;
        }
        return Some(Held { len, number: 0 });
    }
    if len != f.width {
        return None;
    }
    let number = fields::number(&bytes[3..3 + len]);
    Some(Held { len, number })
}

// The list's place: the first field of width 0 has it.
fn first_list(found: Option<Place>, width: usize, at: usize, len: usize) -> Option<Place>
    ensures { result ≡ first_list found width at len }
{
    if width != 0 {
        return found;
    }
    found.or(Some(Place { at, count: len / 8 }))
}

// A number for each field, and where the list stands; or that the bytes are not just these fields.
pub fn walk(bytes: &[u8], fields: Fields) -> Option<Walk>
    ensures found { found_by result bytes.now ≡ placed_all (walkOver (fields_in fields) bytes.now) }
    ensures room { IfSome result (λ w. w.list.at + 8 * w.list.count ≤ length bytes.now) }
{
    let mut numbers = [0; FIELDS];
    let mut list = None;
    let mut at = 0;
    for (i, f) in fields.items[..fields.count].iter().enumerate() {
        let held = read_field(&bytes[at..], *f)?;
        let value = at + 3;
        numbers[i] = held.number;
        list = first_list(list, f.width, value, held.len);
        at = value + held.len;
    }
    if at < bytes.len() {
        return None;
    }
    let list = list.unwrap_or(Place { at: 0, count: 0 });
    Some(Walk { numbers, list })
}

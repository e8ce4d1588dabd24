// The writer of a record: its head, and its inner fields one behind the other.
ghost use Rattle.std.specs.Prelude.{◌≡◌, true, ◌≤◌, ◌<◌, length};
ghost use Rattle.fields.specs.Fields.{field};
ghost use Rattle.rules.specs.Limits.{limits};
ghost use Rattle.records.specs.Format.{content, bytes_of, record_of};
ghost use Rattle.records.specs.Found.{fields_in};
ghost use Rattle.records.specs.Writing.{writing};

use crate::{Field, Fields, WriteError};

// The length of a field's value.
fn content_size(f: Field, list: &[u64]) -> usize
    ensures { result ≡ length (content list.now f) }
{
    if f.width == 0 {
        8 * list.len()
    } else {
        f.width
    }
}

// The length of all the fields.
fn size_of(fields: Fields, list: &[u64]) -> usize
    requires { length list.now ≤ limits.places }
    ensures { (result ≡ length (bytes_of (fields_in fields) list.now)) × (result < 65536) }
{
    let mut size = 0;
    for f in &fields.items[..fields.count] {
        size += 3 + content_size(*f, list);
    }
    size
}

// Fills the slice with a field.
fn put_field(f: Field, list: &[u64], out: &mut [u8])
    requires { length (field f.tag (content list.now f)) ≡ length out.old }
    ensures { out.new ≡ field f.tag (content list.now f) }
{
    fields::put_head(f.tag, out.len() - 3, out);
    if f.width == 0 {
        fields::put_words(list, &mut out[3..]);
    } else {
        fields::put_number(f.number, &mut out[3..]);
    }
}

// Fills the slice with the fields, one behind the other.
fn put_fields(fields: Fields, list: &[u64], out: &mut [u8])
    requires { length (bytes_of (fields_in fields) list.now) ≡ length out.old }
    ensures { out.new ≡ bytes_of (fields_in fields) list.now }
{
    let mut at = 0;
    for f in &fields.items[..fields.count] {
        let end = at + 3 + content_size(*f, list);
        put_field(*f, list, &mut out[at..end]);
        at = end;
    }
}

// Writes a record at the start of `out`, where there is room.
pub fn write_record(
    tag: u8,
    fields: Fields,
    list: &[u64],
    out: &mut [u8],
) -> Result<usize, WriteError>
    requires { length list.now ≤ limits.places }
    ensures { writing true (record_of tag (fields_in fields) list.now) out.old ≡ record { answer = result; buffer = out.new } }
{
    let size = size_of(fields, list);
    let end = 3 + size;
    if out.len() < end {
        return Err(WriteError::Full);
    }
    fields::put_head(tag, size, out);
    put_fields(fields, list, &mut out[3..end]);
    Ok(end)
}

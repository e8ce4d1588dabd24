// An image written: its length first, then row behind row.
ghost use Rattle.std.specs.Prelude.{◌≡◌, true, ◌^◌, ◌≤◌, ◌<◌, length};
ghost use Rattle.rules.specs.Lists.{all};
ghost use Rattle.ledger.specs.Ledger.{view, is_sound};
ghost use Rattle.image.specs.Rows.{bytes_from};
ghost use Rattle.image.specs.Image.{head_bytes, image_of};
ghost use Rattle.image.specs.Reading.{rows_begin};
ghost use Rattle.image.specs.Writing.{writing_of};
ghost use Rattle.image.specs.Code.{Put};

use crate::entries::{CLOCK, COLLECTED, EDITION, Entry};
use crate::{CLOCK_AT, COLLECTED_AT, FIRST_EDITION, IMAGE_TAG, ROWS_AT, SaveError};
use ledger::Ledger;

// How many bytes the rows of these have.
fn rows_size<T: Entry>(items: &[T]) -> usize
    requires { (all T.fits items.now ≡ true) × (length (bytes_from T.bytes 0 items.now) < 2 ^ 64) }
    ensures { result ≡ length (bytes_from T.bytes 0 items.now) }
{
    let mut size = 0;
    for item in items {
        size += item.size();
    }
    size
}

// Lays the rows of these over the start of the slice: how many bytes they have.
fn put_rows<T: Entry>(items: &[T], out: &mut [u8]) -> usize
    requires { (all T.fits items.now ≡ true) × (length (bytes_from T.bytes 0 items.now) ≤ length out.old) }
    ensures { Put (bytes_from T.bytes 0 items.now) out.old out.new result }
{
    let mut at = 0;
    for (i, item) in items.iter().enumerate() {
        let end = at + item.size();
        item.put(i, &mut out[at..end]);
        at = end;
    }
    at
}

fn size_of(ledger: Ledger) -> usize
    requires { is_sound ledger ≡ true }
    ensures { result ≡ length (image_of (view ledger)) }
{
    3 + ROWS_AT
        + rows_size(&ledger.objects.items)
        + rows_size(&ledger.manifests.items[..ledger.manifests.count])
        + rows_size(&ledger.holds.items[..ledger.holds.count])
}

// Fills the slice with the edition, the clock and the highest number collected.
fn put_header(clock: u64, collected: u64, out: &mut [u8])
    requires { length out.old ≡ rows_begin }
    ensures { out.new ≡ head_bytes clock collected }
{
    EDITION.put_number(FIRST_EDITION, &mut out[..CLOCK_AT]);
    CLOCK.put_number(clock, &mut out[CLOCK_AT..COLLECTED_AT]);
    COLLECTED.put_number(collected, &mut out[COLLECTED_AT..ROWS_AT]);
}

// Fills the slice with the image.
fn put_image(ledger: Ledger, out: &mut [u8])
    requires { (is_sound ledger ≡ true) × (length out.old ≡ length (image_of (view ledger))) }
    ensures { out.new ≡ image_of (view ledger) }
{
    fields::put_head(IMAGE_TAG, out.len() - 3, out);
    let mut at = 3 + ROWS_AT;
    put_header(ledger.clock, ledger.collected, &mut out[3..at]);
    at += put_rows(&ledger.objects.items, &mut out[at..]);
    at += put_rows(
        &ledger.manifests.items[..ledger.manifests.count],
        &mut out[at..],
    );
    put_rows(&ledger.holds.items[..ledger.holds.count], &mut out[at..]);
}

// Writes a sound ledger's image at the start of `out`; the bytes beyond it stay. Where it refuses nothing is written.
pub fn write_image(ledger: Ledger, out: &mut [u8]) -> Result<usize, SaveError>
    ensures { writing_of ledger out.old ≡ record { answer = result; buffer = out.new } }
{
    if !ledger.is_sound() {
        return Err(SaveError::Unsound);
    }
    let size = size_of(ledger);
    if out.len() < size {
        return Err(SaveError::Full);
    }
    put_image(ledger, &mut out[..size]);
    Ok(size)
}

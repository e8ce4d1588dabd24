// An image read: its rows in their order, and nothing behind them.
ghost use Rattle.std.specs.Prelude.{◌≡◌, ◌≤◌, length, replicate};
ghost use Rattle.std.specs.Result.{result_unwrap_or};
ghost use Rattle.rules.specs.Limits.{limits};
ghost use Rattle.rules.specs.State.{free, fresh};
ghost use Rattle.ledger.specs.Ledger.{lay};
ghost use Rattle.objects.specs.Objects.{lay_places};
ghost use Rattle.image.specs.Rows.{rows_from};
ghost use Rattle.image.specs.Reading.{objects_of, places_of, read_of, ledger_beside};
ghost use Rattle.image.specs.Code.{Filled, rows_read};

use crate::entries::{CLOCK, COLLECTED, EDITION, OBJECT_ROW, Packed, spot_at};
use crate::rows::Found;
use crate::{CLOCK_AT, COLLECTED_AT, FIRST_EDITION, IMAGE_TAG, LoadError, ROWS_AT};
use ledger::Ledger;
use objects::Objects;
use rules::PLACES;

// Puts the objects whose rows come next into their places, which are all free: how many bytes the rows have.
fn read_objects(s: &[u8], objects: &mut Objects) -> usize
    requires { objects.old ≡ lay_places (replicate limits.places free) }
    ensures objects { objects.new ≡ objects_of (places_of s.now).values }
    ensures size { result ≡ (places_of s.now).size }
    ensures room { result ≤ length s.now }
{
    let mut at = 0;
    for place in 0..PLACES {
        if let Some(object) = spot_at(&s[at..], place as u64) {
            objects.items[place] = object;
            objects::set_bit(&mut objects.occupancy, place);
            at += OBJECT_ROW;
        }
    }
    at
}

// Reads the rows that come next into the places, as many as there are places: how many they are, and their bytes.
fn read_packed<T: Packed>(s: &[u8], places: &mut [T]) -> Found<usize>
    ensures filled { Filled (rows_from (λ p bs. T.front bs) (length places.old) 0 s.now) places.old places.new result }
    ensures room { result.size ≤ length s.now }
{
    let mut at = 0;
    for (i, place) in places.iter_mut().enumerate() {
        let Some(row) = T::read(&s[at..]) else {
            return Found { value: i, size: at };
        };
        *place = row.value;
        at += row.size;
    }
    Found {
        value: places.len(),
        size: at,
    }
}

// The ledger of the rows, where nothing stands behind them.
fn read_rows(s: &[u8]) -> Option<Ledger>
    ensures { result ≡ rows_read s.now }
{
    if EDITION.number(s)? != FIRST_EDITION {
        return None;
    }
    let mut ledger = Ledger::fresh();
    ledger.clock = CLOCK.number(&s[CLOCK_AT..])?;
    ledger.collected = COLLECTED.number(&s[COLLECTED_AT..])?;
    let kept_at = ROWS_AT + read_objects(&s[ROWS_AT..], &mut ledger.objects);
    let kept = read_packed(&s[kept_at..], &mut ledger.manifests.items);
    ledger.manifests.count = kept.value;
    let held_at = kept_at + kept.size;
    let held = read_packed(&s[held_at..], &mut ledger.holds.items);
    ledger.holds.count = held.value;
    if held_at + held.size != s.len() {
        return None;
    }
    Some(ledger)
}

// Takes all the bytes lent as one image. Who is to have a ledger either way has the fresh one beside a refusal.
#[inline(never)]
pub fn read_image(bytes: &[u8]) -> Result<Ledger, LoadError>
    ensures is { result ≡ read_of bytes.now }
    ensures beside { result_unwrap_or result (lay fresh) ≡ ledger_beside bytes.now }
{
    if !records::is_whole(bytes) || bytes[0] != IMAGE_TAG {
        return Err(LoadError::Malformed);
    }
    let Some(ledger) = read_rows(&bytes[3..]) else {
        return Err(LoadError::Malformed);
    };
    if !ledger.is_sound() {
        return Err(LoadError::Unsound);
    }
    Ok(ledger)
}

// The rows of an image: of one number, of an object, of a manifest, of a hold. This file alone knows their columns.
ghost use Rattle.std.specs.Prelude.{◌≡◌, ℕ, Bool, true, List, [], ◌≤◌, length, drop, IfSome, OnSome, Option};
ghost use Rattle.manifests.specs.Manifests.{is_list_laid, manifest_of};
ghost use Rattle.image.specs.declared.rows.Found.{Found};
ghost use Rattle.image.specs.Rows.{numbers_of};
ghost use Rattle.image.specs.Format.{object_row, object_size, object_cells};
ghost use Rattle.image.specs.Image.{place_bytes, manifest_bytes, hold_bytes};
ghost use Rattle.image.specs.Reading.{object_in, spot_at, manifest_at, hold_at};
ghost use Rattle.image.specs.Code.{found_manifest};

use crate::rows::{Form, Found};
use manifests::KeptManifest;
use rules::{Hold, NAMES, Object};

// Rows of one number

pub(crate) const EDITION: Form<1> = Form {
    tag: 0x61,
    widths: [1],
    width: 1,
    names: 0,
};

pub(crate) const CLOCK: Form<1> = Form {
    tag: 0x62,
    widths: [8],
    width: 8,
    names: 0,
};

pub(crate) const COLLECTED: Form<1> = Form {
    tag: 0x63,
    widths: [8],
    width: 8,
    names: 0,
};

// Where the columns of an object's row stand, and its end: place, object, role, epoch, currency, named.
const PLACE_AT: usize = 3;

const NUMBER_AT: usize = PLACE_AT + 1;

const ROLE_AT: usize = NUMBER_AT + 8;

const EPOCH_AT: usize = ROLE_AT + 1;

const CURRENCY_AT: usize = EPOCH_AT + 8;

const NAMED_AT: usize = CURRENCY_AT + 2;

pub(crate) const OBJECT_ROW: usize = NAMED_AT + 1;

const OBJECT: Form<6> = Form {
    tag: 0x64,
    widths: [1, 8, 1, 8, 2, 1],
    width: OBJECT_ROW - 3,
    names: 0,
};

// manifest, writer epoch, compactor epoch; the list stands behind them
const MANIFEST: Form<3> = Form {
    tag: 0x65,
    widths: [8, 8, 8],
    width: 24,
    names: NAMES,
};

pub(crate) const MANIFEST_ROW: usize = 3 + MANIFEST.width;

// hold, manifest, expiry
const HOLD: Form<3> = Form {
    tag: 0x66,
    widths: [8, 8, 8],
    width: 24,
    names: 0,
};

pub(crate) const HOLD_ROW: usize = 3 + HOLD.width;

// What an image has a row for.
pub(crate) trait Entry {
    // whether its row says all of it
    ghost fits: { Self → Bool };

    // the bytes of its row, with so many others of its kind before it
    ghost bytes: { ℕ → Self → List ℕ };

    // How many bytes its row has.
    fn size(&self) -> usize
        requires { fits self.now ≡ true }
        ensures { (p : ℕ) → result ≡ length (bytes p self.now) };

    // Fills the slice with its row.
    fn put(&self, place: usize, out: &mut [u8])
        requires { (fits self.now ≡ true) × (length out.old ≡ length (bytes place self.now)) }
        ensures { out.new ≡ bytes place self.now };
}

// What stands packed, so that its row says no place.
pub(crate) trait Packed: Entry + Copy {
    // the one whose row stands at the front
    ghost front: { List ℕ → Option (Found Self) };

    fn read(s: &[u8]) -> Option<Found<Self>>
        ensures is { result ≡ front s.now }
        ensures there { IfSome result (λ r. r.size ≤ length s.now) };
}

// Objects

fn object_numbers(place: u64, o: Object) -> [u64; 6]
    ensures { result ≡ (object_cells place o).numbers }
{
    [
        place,
        o.number,
        records::role_number(o.role),
        o.epoch,
        u64::from(o.currency),
        u64::from(o.named),
    ]
}

// The object of a row that says this place.
fn object_in(place: u64, columns: [u64; 6]) -> Option<Object>
    ensures { result ≡ object_in place (record { numbers = columns; names = [] }) }
{
    let [at, number, role, epoch, currency, named] = columns;
    if at != place || 1 < named {
        return None;
    }
    Some(Object {
        number,
        role: records::role_from(role)?,
        epoch,
        currency: (currency % 65536) as u16,
        named: named != 0,
    })
}

// The numbers of an object's row, read where they stand: most of an image is such rows.
fn object_columns(s: &[u8]) -> [u64; 6]
    requires { object_size ≤ length s.now }
    ensures { result ≡ numbers_of object_row.widths (drop 3 s.now) }
{
    [
        u64::from(s[PLACE_AT]),
        fields::eight(s, NUMBER_AT),
        u64::from(s[ROLE_AT]),
        fields::eight(s, EPOCH_AT),
        fields::pair(s, CURRENCY_AT),
        u64::from(s[NAMED_AT]),
    ]
}

// The object whose row stands at the front, if that says this place.
pub(crate) fn spot_at(s: &[u8], place: u64) -> Option<Object>
    ensures is { result ≡ spot_at place s.now }
    ensures room { OnSome result (object_size ≤ length s.now) }
{
    OBJECT.head(s)?;
    object_in(place, object_columns(s))
}

// A free place has no row.
impl Entry for Object {
    ghost fits = { λ _. true };

    ghost bytes = { place_bytes };

    fn size(&self) -> usize {
        if self.number == 0 { 0 } else { OBJECT_ROW }
    }

    fn put(&self, place: usize, out: &mut [u8]) {
        if self.number != 0 {
            OBJECT.put(&object_numbers(place as u64, *self), &[], out);
        }
    }
}

// Manifests

impl Entry for KeptManifest {
    ghost fits = { is_list_laid };

    ghost bytes = { λ p m. manifest_bytes p (manifest_of m) };

    fn size(&self) -> usize {
        MANIFEST_ROW + 8 * self.count
    }

    fn put(&self, _place: usize, out: &mut [u8]) {
        let numbers = [self.number, self.writer, self.compactor];
        MANIFEST.put(&numbers, &self.names[..self.count], out);
    }
}

impl Packed for KeptManifest {
    ghost front = { λ bs. found_manifest (manifest_at 0 bs) };

    fn read(s: &[u8]) -> Option<Found<KeptManifest>> {
        let row = MANIFEST.read(s)?;
        let [number, writer, compactor] = row.value.numbers;
        let count = row.value.names;
        let mut names = [0; NAMES];
        fields::read_words(&s[MANIFEST_ROW..], &mut names[..count]);
        Some(Found {
            value: KeptManifest {
                number,
                writer,
                compactor,
                count,
                names,
            },
            size: row.size,
        })
    }
}

// Holds

impl Entry for Hold {
    ghost fits = { λ _. true };

    ghost bytes = { hold_bytes };

    fn size(&self) -> usize {
        HOLD_ROW
    }

    fn put(&self, _place: usize, out: &mut [u8]) {
        HOLD.put(&[self.number, self.manifest, self.expiry], &[], out);
    }
}

impl Packed for Hold {
    ghost front = { hold_at 0 };

    fn read(s: &[u8]) -> Option<Found<Hold>> {
        let row = HOLD.read(s)?;
        let [number, manifest, expiry] = row.value.numbers;
        Some(Found {
            value: Hold {
                number,
                manifest,
                expiry,
            },
            size: row.size,
        })
    }
}

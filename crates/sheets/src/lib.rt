// Rate sheets (document 02, request 2): a record like the others, read and written, each undoing the other.
#![tactic(auto)]

ghost use Rattle.std.specs.Prelude.{◌≡◌};
ghost use Rattle.records.specs.Found.{fields_in};
ghost use Rattle.sheets.specs.Sheets.{sheet_fields, is_rate, sheet_formed, sheet_from, formed, decode_sheet, sheet_writing};

use records::{CURRENCY, FIELDS, Fields, OBJECT, Tag, WriteError};

const SHEET_TAG: u8 = 0x50;

// The bytes of every sheet.
pub const SHEET: usize = 41;

// The largest numerator and the largest denominator.
pub const LARGEST_RATE: u64 = 1000000000;

// The rate of a currency, kept in the object of that number: `numerator` units of the currency are `denominator` home units.
#[derive(Clone, Copy, PartialEq, Eq)]
pub struct Sheet {
    pub object: u64,
    pub currency: u16,
    pub numerator: u64,
    pub denominator: u64,
}

// The format

const NUMERATOR: Tag = Tag(0x0C, 8);

const DENOMINATOR: Tag = Tag(0x0D, 8);

#[tactic(auto, unfolding(rules::specs::Lists::all))]
fn sheet_fields(s: Sheet) -> Fields
    ensures { fields_in result ≡ sheet_fields s }
{
    records::fields_of([
        OBJECT.of(s.object),
        CURRENCY.of(u64::from(s.currency)),
        NUMERATOR.of(s.numerator),
        DENOMINATOR.of(s.denominator),
    ])
}

fn is_rate(n: u64) -> bool
    ensures { result ≡ is_rate n }
{
    n != 0 && n <= LARGEST_RATE
}

#[tactic(auto, unfolding(crate::specs::Sheets::sheet_formed, rules::specs::Lists::conj))]
fn is_formed(s: Sheet) -> bool
    ensures { result ≡ sheet_formed s }
{
    s.object != 0
        && s.currency != 0
        && s.currency <= rules::LARGEST_CURRENCY
        && is_rate(s.numerator)
        && is_rate(s.denominator)
}

// Reading

// The sheet with the numbers of its fields.
fn sheet_from(v: [u64; FIELDS]) -> Option<Sheet>
    ensures { result ≡ formed (sheet_from v) }
{
    let sheet = Sheet {
        object: v[0],
        currency: (v[1] % 65536) as u16,
        numerator: v[2],
        denominator: v[3],
    };
    is_formed(sheet).then_some(sheet)
}

// Takes all the bytes lent as one record. None is the paper's number 2.
pub fn read_sheet(bytes: &[u8]) -> Option<Sheet>
    ensures { result ≡ decode_sheet bytes.now }
{
    if !records::is_whole(bytes) || bytes[0] != SHEET_TAG {
        return None;
    }
    let blank = Sheet {
        object: 0,
        currency: 0,
        numerator: 0,
        denominator: 0,
    };
    let w = records::walk_fields(&bytes[3..], sheet_fields(blank))?;
    sheet_from(w.numbers)
}

// Writes a sheet's record at the start of `out`; the bytes beyond it stay. Where it refuses nothing is written.
pub fn write_sheet(sheet: Sheet, out: &mut [u8]) -> Result<usize, WriteError>
    ensures { sheet_writing sheet out.old ≡ record { answer = result; buffer = out.new } }
{
    if !is_formed(sheet) {
        return Err(WriteError::Malformed);
    }
    if out.len() < SHEET {
        return Err(WriteError::Full);
    }
    records::write_record(SHEET_TAG, sheet_fields(sheet), &[], out)
}

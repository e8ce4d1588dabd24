// The sale desk for C: numbers and byte slices, no `requires`. include/cuudhaqil_desk.h says what each call promises.
#![tactic(auto)]

ghost use Rattle.std.specs.Prelude.{◌≡◌, ◌*◌, ◌≤◌, length};
ghost use Rattle.desk.specs.Card.{row_limit};
ghost use Rattle.desk_exports.specs.Calls.{narrow, sale_numbers, read_sheet, write_sheet, sell, row_from, put_filled, fill_card};

use desk::{Entry, ROW, SaleError};
use exports::{MALFORMED, NO_PLACE, codec};
use ledger_numbers::LEDGER;
use sheets::Sheet;

// How many numbers a sheet, a sale and an entry of a card have.
const SHEET: usize = 4;

const SALE: usize = 2;

const ENTRY: usize = 3;

// A currency that fits 16 bits; any other is taken as the largest, which no sheet has.
fn narrow_currency(c: u64) -> u16
    ensures { result ≡ narrow c }
{
    u16::try_from(c).unwrap_or(u16::MAX)
}

// Sheets

// Reads all the bytes as one rate sheet: its four numbers.
#[tactic(auto, unfolding(crate::specs::Calls::read_sheet))]
pub fn cuudhaqil_read_sheet(bytes: &[u8], numbers: &mut [u64]) -> u64
    ensures { read_sheet bytes.now numbers.old ≡ record { answer = result; left = numbers.new } }
{
    if numbers.len() < SHEET {
        return NO_PLACE;
    }
    let Some(s) = sheets::read_sheet(bytes) else {
        return MALFORMED;
    };
    let from = [s.object, s.currency as u64, s.numerator, s.denominator];
    ledger_numbers::fill(&from, numbers);
    0
}

// Writes the record of a rate sheet, said as the reader says it, at the start of `out`.
#[tactic(auto, unfolding(crate::specs::Calls::write_sheet))]
pub fn cuudhaqil_write_sheet(numbers: &[u64], out: &mut [u8]) -> u64
    ensures { write_sheet numbers.now out.old ≡ record { answer = result; left = out.new } }
{
    if numbers.len() < SHEET {
        return NO_PLACE;
    }
    let sheet = Sheet {
        object: numbers[0],
        currency: narrow_currency(numbers[1]),
        numerator: numbers[2],
        denominator: numbers[3],
    };
    codec::write_code(sheets::write_sheet(sheet, out))
}

// Sales

// The code and the charge of a sale.
fn sale_numbers(sale: Result<u64, SaleError>) -> [u64; SALE]
    ensures { result ≡ sale_numbers sale }
{
    match sale {
        Ok(units) => [0, units],
        Err(error) => [u64::from(error.number()), 0],
    }
}

// A sale on any ledger: the next ledger in its place, the code and the charge.
#[tactic(auto, unfolding(crate::specs::Calls::sell))]
pub fn cuudhaqil_sell(
    ledger: &mut [u64],
    time: u64,
    sheet: &[u8],
    currency: u64,
    hold: u64,
    fare: u64,
    sale: &mut [u64],
) -> u64
    ensures { sell ledger.old time sheet.now currency hold fare sale.old ≡ record { answer = result; ledger = ledger.new; sale = sale.new } }
{
    if ledger.len() < LEDGER || sale.len() < SALE {
        return NO_PLACE;
    }
    let old = ledger_numbers::ledger_from(ledger);
    let sold = desk::sell(old, time, sheet, narrow_currency(currency), hold, fare);
    ledger_numbers::lay_back(sold.ledger, ledger);
    ledger_numbers::fill(&sale_numbers(sold.sale), sale);
    0
}

// Cards

// A row with the currencies of the card's first entries.
fn row_from(card: &[u64], count: usize) -> [Entry; ROW]
    requires { (count ≤ row_limit) × (3 * count ≤ length card.now) }
    ensures { result ≡ row_from count card.now }
{
    let blank = Entry {
        currency: 0,
        code: 0,
        object: 0,
    };
    let mut row = [blank; ROW];
    for (i, entry) in row[..count].iter_mut().enumerate() {
        *entry = Entry {
            currency: narrow_currency(card[ENTRY * i]),
            ..blank
        };
    }
    row
}

// Lays the codes and objects of the row's first entries over the card's.
#[tactic(auto, unfolding(crate::specs::Calls::put_filled))]
fn put_filled(row: &[Entry; ROW], count: usize, card: &mut [u64])
    requires { (count ≤ row_limit) × (3 * count ≤ length card.old) }
    ensures { card.new ≡ put_filled row.now count card.old }
{
    for (i, entry) in row[..count].iter().enumerate() {
        card[ENTRY * i + 1] = u64::from(entry.code);
        card[ENTRY * i + 2] = entry.object;
    }
}

// Fills in the first `count` entries of a card on any ledger: the next ledger in its place.
#[tactic(auto, unfolding(crate::specs::Calls::fill_card))]
pub fn cuudhaqil_fill_card(
    ledger: &mut [u64],
    time: u64,
    hold: u64,
    count: u64,
    card: &mut [u64],
) -> u64
    ensures { fill_card ledger.old time hold count card.old ≡ record { answer = result; ledger = ledger.new; card = card.new } }
{
    if ledger.len() < LEDGER {
        return NO_PLACE;
    }
    let length = card.len() / ENTRY;
    if ROW < length {
        return NO_PLACE;
    }
    let n = count as usize;
    if length < n {
        return MALFORMED;
    }
    let old = ledger_numbers::ledger_from(ledger);
    let row = row_from(card, n);
    match desk::fill_row(old, time, hold, n, row) {
        Ok(filled) => {
            ledger_numbers::lay_back(filled.ledger, ledger);
            put_filled(&filled.entries, n, card);
            0
        }
        Err(error) => u64::from(error.number()),
    }
}

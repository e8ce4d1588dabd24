// The sale desk above the ledger (document 02, request 2): a sale by one LOOK and one rate sheet, and the route card. Of the
// ledger it knows only what Ledger::step promises.
#![tactic(auto)]

ghost use Rattle.std.specs.Prelude.{◌≡◌, true, ◌≤◌};
ghost use Rattle.sheets.specs.Sheets.{sheet_formed};
ghost use Rattle.rules.specs.Typed.{request_of};
ghost use Rattle.desk.specs.Charge.{largest_fare, charge_of};
ghost use Rattle.desk.specs.Look.{asked, found_in, look_of};
ghost use Rattle.desk.specs.Sale.{error_number, refused_sale, sale_by, sale_of};
ghost use Rattle.desk.specs.Card.{filled, card_of, answer_of, row_of};

use ledger::Ledger;
use rules::{Answer, Kind, NAMES, NameList, Step};
use sheets::Sheet;

// The largest fare, in home units.
pub const LARGEST_FARE: u64 = 1000000;

// The numbers that the desk itself refuses with: a malformed sheet, fare or count; a sheet that is not the one in force.
pub const MALFORMED: u8 = 2;

pub const OTHER_SHEET: u8 = 30;

// What a look comes to: the object in force or the ledger's number, and the next ledger.
#[derive(Clone, Copy)]
pub struct Looked {
    pub found: Result<u64, u8>,
    pub ledger: Ledger,
}

// Why a sale, or the filling in of a card, is refused.
#[derive(Clone, Copy, PartialEq, Eq)]
pub enum SaleError {
    // the ledger refuses the look, with a number of its own
    LookRefused(u8),
    // the sheet, the fare or the count is malformed
    Malformed,
    // the sheet is not the one in force
    OtherSheet,
}

impl SaleError {
    // The paper's number.
    pub fn number(self) -> u8
        ensures { result ≡ error_number self }
    {
        match self {
            SaleError::LookRefused(number) => number,
            SaleError::Malformed => MALFORMED,
            SaleError::OtherSheet => OTHER_SHEET,
        }
    }
}

// The units of the currency that are charged, or why nothing is; and the ledger after the sale.
#[derive(Clone, Copy)]
pub struct SaleAnswer {
    pub sale: Result<u64, SaleError>,
    pub ledger: Ledger,
}

// The look

// What the ledger answers to a LOOK. It has no other answers to one.
fn found_in(answer: Answer) -> Result<u64, u8>
    ensures { result ≡ found_in answer }
{
    match answer {
        Answer::Found(object) => Ok(object),
        Answer::Refused(number) => Err(number),
        _ => Ok(0),
    }
}

// The step that asks a LOOK, which has no list.
fn look_step(time: u64, currency: u16, hold: u64) -> Step
    ensures { request_of result ≡ asked time currency hold }
{
    Step {
        time,
        kind: Kind::Look { currency, hold },
        list: NameList {
            count: 0,
            names: [0; NAMES],
        },
    }
}

// One LOOK on any ledger.
#[tactic(auto, unfolding(crate::specs::Look::look_of))]
pub fn look(ledger: Ledger, time: u64, currency: u16, hold: u64) -> Looked
    ensures { result ≡ look_of ledger time currency hold }
{
    let answered = ledger.step(look_step(time, currency, hold));
    Looked {
        found: found_in(answered.verdict.answer),
        ledger: answered.ledger,
    }
}

// The sale

// The fare in the currency of the sheet, rounded up. No product leaves 64 bits.
fn charge(fare: u64, sheet: Sheet) -> u64
    requires { (fare ≤ largest_fare) × (sheet_formed sheet ≡ true) }
    ensures { result ≡ charge_of fare sheet.numerator sheet.denominator }
{
    (fare * sheet.numerator).div_ceil(sheet.denominator)
}

// The sale by a sheet and what the look found.
fn sold(sheet: Sheet, currency: u16, fare: u64, found: Result<u64, u8>) -> Result<u64, SaleError>
    requires { (fare ≤ largest_fare) × (sheet_formed sheet ≡ true) }
    ensures { result ≡ sale_by sheet currency fare found }
{
    let object = found.map_err(SaleError::LookRefused)?;
    if sheet.object != object || sheet.currency != currency {
        return Err(SaleError::OtherSheet);
    }
    Ok(charge(fare, sheet))
}

fn refused(error: SaleError, ledger: Ledger) -> SaleAnswer
    ensures { result ≡ refused_sale error ledger }
{
    SaleAnswer {
        sale: Err(error),
        ledger,
    }
}

// A sale in that currency, by the current manifest or by that of a live hold, with the sheet lent as bytes: the ledger after
// the look, or where it is refused the one before.
#[tactic(auto, unfolding(crate::specs::Sale::sale_of))]
pub fn sell(
    ledger: Ledger,
    time: u64,
    bytes: &[u8],
    currency: u16,
    hold: u64,
    fare: u64,
) -> SaleAnswer
    ensures { result ≡ sale_of ledger time bytes.now currency hold fare }
{
    let Some(sheet) = sheets::read_sheet(bytes) else {
        return refused(SaleError::Malformed, ledger);
    };
    if LARGEST_FARE < fare {
        return refused(SaleError::Malformed, ledger);
    }
    let looked = look(ledger, time, currency, hold);
    match sold(sheet, currency, fare, looked.found) {
        Ok(units) => SaleAnswer {
            sale: Ok(units),
            ledger: looked.ledger,
        },
        Err(error) => refused(error, ledger),
    }
}

// The route card

// stays: the code and the object, or 0, beside one another: `card_of` promises both, as C's card has them.
#[derive(Clone, Copy)]
pub struct Entry {
    pub currency: u16,
    pub code: u8,
    pub object: u64,
}

// Fills in one entry by a LOOK, and hands the ledger on. `look` would copy the ledger once more for each entry.
#[tactic(auto, unfolding(crate::specs::Card::filled, crate::specs::Look::look_of))]
fn fill_entry(ledger: Ledger, time: u64, hold: u64, entry: &mut Entry) -> Ledger
    ensures { record { entry = entry.new; ledger = result } ≡ filled ledger time hold entry.old }
{
    let answered = ledger.step(look_step(time, entry.currency, hold));
    let found = found_in(answered.verdict.answer);
    entry.code = found.err().unwrap_or(0);
    entry.object = found.unwrap_or(0);
    answered.ledger
}

// Fills in the first `count` entries in order, and hands the ledger on from look to look and back. A count above the card's
// length is malformed: the number is 2, and card and ledger stay as they are.
pub fn fill_card(
    ledger: Ledger,
    time: u64,
    hold: u64,
    count: usize,
    card: &mut [Entry],
) -> Result<Ledger, SaleError>
    ensures { (result ≡ answer_of ledger time hold count card.old) × (card.new ≡ card_of ledger time hold count card.old) }
{
    if card.len() < count {
        return Err(SaleError::Malformed);
    }
    let mut next = ledger;
    for entry in &mut card[..count] {
        next = fill_entry(next, time, hold, entry);
    }
    Ok(next)
}

// The entries of a row by value.
pub const ROW: usize = 64;

#[derive(Clone, Copy)]
pub struct RowFilled {
    pub ledger: Ledger,
    pub entries: [Entry; ROW],
}

// A card of the first entries of a row, by value: its callers lend nothing.
#[tactic(auto, unfolding(crate::specs::Card::row_of))]
pub fn fill_row(
    ledger: Ledger,
    time: u64,
    hold: u64,
    count: usize,
    entries: [Entry; ROW],
) -> Result<RowFilled, SaleError>
    ensures { result ≡ row_of ledger time hold count entries }
{
    let mut entries = entries;
    let ledger = fill_card(ledger, time, hold, count, &mut entries)?;
    Ok(RowFilled { ledger, entries })
}

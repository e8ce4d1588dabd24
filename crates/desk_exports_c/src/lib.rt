// The calls of crate desk_exports for C: libdesk_exports.a. A crate is a library or an archive for C, not both, so each export
// here calls the library's function of its name and promises what it promises. include/cuudhaqil_desk.h says it in words.
#![tactic(auto)]

ghost use Rattle.std.specs.Prelude.{◌≡◌};
ghost use Rattle.desk_exports.specs.Calls.{fill_card, read_sheet, sell, write_sheet};

// Reads all the bytes as one rate sheet: its four numbers.
#[unsafe(no_mangle)]
pub extern "C" fn cuudhaqil_read_sheet(bytes: &[u8], numbers: &mut [u64]) -> u64
    ensures { read_sheet bytes.now numbers.old ≡ record { answer = result; left = numbers.new } }
{
    desk_exports::cuudhaqil_read_sheet(bytes, numbers)
}

// Writes the record of a rate sheet, said as the reader says it, at the start of `out`.
#[unsafe(no_mangle)]
pub extern "C" fn cuudhaqil_write_sheet(numbers: &[u64], out: &mut [u8]) -> u64
    ensures { write_sheet numbers.now out.old ≡ record { answer = result; left = out.new } }
{
    desk_exports::cuudhaqil_write_sheet(numbers, out)
}

// A sale on any ledger: the next ledger in its place, the code and the charge.
#[unsafe(no_mangle)]
pub extern "C" fn cuudhaqil_sell(
    ledger: &mut [u64],
    time: u64,
    sheet: &[u8],
    currency: u64,
    hold: u64,
    fare: u64,
    sale: &mut [u64],
) -> u64
    ensures { sell ledger.old time sheet.now currency hold fare sale.old ≡ record { answer = result; ledger = ledger.new; sale = sale.new } }
{
    desk_exports::cuudhaqil_sell(ledger, time, sheet, currency, hold, fare, sale)
}

// Fills in the first `count` entries of a card on any ledger: the next ledger in its place.
#[unsafe(no_mangle)]
pub extern "C" fn cuudhaqil_fill_card(
    ledger: &mut [u64],
    time: u64,
    hold: u64,
    count: u64,
    card: &mut [u64],
) -> u64
    ensures { fill_card ledger.old time hold count card.old ≡ record { answer = result; ledger = ledger.new; card = card.new } }
{
    desk_exports::cuudhaqil_fill_card(ledger, time, hold, count, card)
}

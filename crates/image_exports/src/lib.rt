// Images for C: bytes and numbers, no `requires`. include/cuudhaqil_image.h says what each call promises.
#![tactic(auto)]

ghost use Rattle.std.specs.Prelude.{◌≡◌};
ghost use Rattle.image.specs.Writing.{write_code};
ghost use Rattle.image_exports.specs.Calls.{write_image, read_image};

use exports::{FULL, NO_PLACE, NOT_SOUND};
use image::SaveError;
use ledger::Ledger;
use ledger_numbers::LEDGER;

// The bytes written, or the refusal's number.
fn write_code(written: Result<usize, SaveError>) -> u64
    ensures { result ≡ write_code written }
{
    match written {
        Ok(n) => n as u64,
        Err(SaveError::Unsound) => NOT_SOUND,
        Err(SaveError::Full) => FULL,
    }
}

// Writes the image of the ledger that the numbers say at the start of `out`.
#[tactic(auto, unfolding(crate::specs::Calls::write_image))]
pub fn cuudhaqil_write_image(ledger: &[u64], out: &mut [u8]) -> u64
    ensures { write_image ledger.now out.old ≡ record { answer = result; left = out.new } }
{
    if ledger.len() < LEDGER {
        return NO_PLACE;
    }
    let said = ledger_numbers::ledger_from(ledger);
    write_code(image::write_image(said, out))
}

// Reads all the bytes as one image: the ledger's numbers, or the fresh one's beside a refusal.
#[tactic(auto, unfolding(crate::specs::Calls::read_image))]
pub fn cuudhaqil_read_image(image: &[u8], ledger: &mut [u64]) -> u64
    ensures { read_image image.now ledger.old ≡ record { answer = result; left = ledger.new } }
{
    if ledger.len() < LEDGER {
        return NO_PLACE;
    }
    let (said, code) = match image::read_image(image) {
        Ok(read) => (read, 0),
        Err(e) => (Ledger::fresh(), e.number()),
    };
    ledger_numbers::put_ledger(said, &mut ledger[..LEDGER]);
    code
}

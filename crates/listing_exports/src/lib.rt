// The listing of a bucket for C: bytes and numbers, no `requires`. include/cuudhaqil_listing.h says what the call promises.
#![tactic(auto)]

ghost use Rattle.std.specs.Prelude.{◌≡◌};
ghost use Rattle.listing_exports.specs.Calls.{read_listing};

use exports::NO_PLACE;

// How many numbers a listing has.
const LISTING: usize = 4;

// Reads all the bytes as a listing: its four numbers, and whether a line is bad.
#[tactic(auto, unfolding(crate::specs::Calls::read_listing))]
pub fn cuudhaqil_read_listing(bytes: &[u8], numbers: &mut [u64]) -> u64
    ensures { read_listing bytes.now numbers.old ≡ record { answer = result; left = numbers.new } }
{
    if numbers.len() < LISTING {
        return NO_PLACE;
    }
    let said = listing::read_listing(bytes);
    let from = [
        u64::from(said.manifest.is_some()),
        said.manifest.unwrap_or(0),
        said.objects,
        said.bad.unwrap_or(0),
    ];
    ledger_numbers::fill(&from, numbers);
    u64::from(said.bad.is_some())
}

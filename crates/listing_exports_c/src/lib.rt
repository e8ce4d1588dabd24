// The call of crate listing_exports for C: liblisting_exports.a. A crate is a library or an archive for C, not both, so the
// export here calls the library's function of its name and promises what it promises. include/cuudhaqil_listing.h says it in words.
#![tactic(auto)]

ghost use Rattle.std.specs.Prelude.{◌≡◌};
ghost use Rattle.listing_exports.specs.Calls.{read_listing};

// Reads all the bytes as a listing: its four numbers, and whether a line is bad.
#[unsafe(no_mangle)]
pub extern "C" fn cuudhaqil_read_listing(bytes: &[u8], numbers: &mut [u64]) -> u64
    ensures { read_listing bytes.now numbers.old ≡ record { answer = result; left = numbers.new } }
{
    listing_exports::cuudhaqil_read_listing(bytes, numbers)
}

// The calls of crate image_exports for C: libimage_exports.a. A crate is a library or an archive for C, not both, so each export
// here calls the library's function of its name and promises what it promises. include/cuudhaqil_image.h says it in words.
#![tactic(auto)]

ghost use Rattle.std.specs.Prelude.{◌≡◌};
ghost use Rattle.image_exports.specs.Calls.{read_image, write_image};

// Writes the image of the ledger that the numbers say at the start of `out`.
#[unsafe(no_mangle)]
pub extern "C" fn cuudhaqil_write_image(ledger: &[u64], out: &mut [u8]) -> u64
    ensures { write_image ledger.now out.old ≡ record { answer = result; left = out.new } }
{
    image_exports::cuudhaqil_write_image(ledger, out)
}

// Reads all the bytes as one image: the ledger's numbers, or the fresh one's beside a refusal.
#[unsafe(no_mangle)]
pub extern "C" fn cuudhaqil_read_image(image: &[u8], ledger: &mut [u64]) -> u64
    ensures { read_image image.now ledger.old ≡ record { answer = result; left = ledger.new } }
{
    image_exports::cuudhaqil_read_image(image, ledger)
}

// The ledger as an image (document 02, request 6): written, and read back.
#![tactic(auto)]

mod entries;
mod loading;
mod rows;
mod saving;

ghost use Rattle.std.specs.Prelude.{◌≡◌};
ghost use Rattle.image.specs.Reading.{error_number};
ghost use Rattle.image.specs.RoundTrip.{longest_image};

pub use loading::read_image;
use rules::NAMES;
pub use saving::write_image;

const IMAGE_TAG: u8 = 0x60;

const FIRST_EDITION: u64 = 1;

// Where the rows of one number stand in an image, and where the others begin: 3 bytes for each head.
const CLOCK_AT: usize = 3 + entries::EDITION.width;

const COLLECTED_AT: usize = CLOCK_AT + 3 + entries::CLOCK.width;

const ROWS_AT: usize = COLLECTED_AT + 3 + entries::COLLECTED.width;

// The longest image: every place has an object, every manifest all its names, and all holds are there.
pub const LONGEST_IMAGE: usize = 3
    + ROWS_AT
    + entries::OBJECT_ROW * rules::PLACES
    + (entries::MANIFEST_ROW + 8 * NAMES) * rules::MANIFESTS
    + entries::HOLD_ROW * rules::HOLDS;

// The room that holds any image.
pub fn longest_image() -> usize
    ensures { result ≡ longest_image }
{
    LONGEST_IMAGE
}

// Why the reader refuses.
#[derive(Clone, Copy, PartialEq, Eq)]
pub enum LoadError {
    // the ledger is not sound
    Unsound,
    // the bytes do not have the form of an image, or more entries than there are places
    Malformed,
}

impl LoadError {
    // The paper's number.
    pub fn number(self) -> u64
        ensures { result ≡ error_number self }
    {
        match self {
            LoadError::Unsound => 1,
            LoadError::Malformed => 2,
        }
    }
}

// Why the writer refuses; it writes nothing then.
#[derive(Clone, Copy, PartialEq, Eq)]
pub enum SaveError {
    // the ledger is not sound: the paper's number 1
    Unsound,
    // the room is short
    Full,
}

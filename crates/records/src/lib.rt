// Step records, and what any record is made of (document 01, "Records and names"): read and written, each undoing the other.
#![tactic(auto)]

ghost use Rattle.std.specs.Prelude.{◌≡◌, ◌≤◌, true, take};
ghost use Rattle.rules.specs.Lists.{all};
ghost use Rattle.records.specs.Format.{is_narrow, most_fields};

mod format;
mod steps;
mod walking;
mod writing;

// Why a writer refuses.
pub use fields::WriteError;
// For records of crates above: fields of the table, and what reads and writes any record.
pub use format::{CODE, CURRENCY, EPOCH, LIST, MANIFEST, OBJECT, Tag, fields_of, role_number};
pub use steps::{read_step, role_from, write_step};
pub use walking::{is_whole, walk as walk_fields};
pub use writing::write_record;

// How many inner fields a record has at most.
pub const FIELDS: usize = 6;

// An inner field: its tag and its number in so many bytes. Width 0 is the list, which stands beside the fields.
// stays: width 0 for the list, as the definition `inner` of the table has it.
#[derive(Clone, Copy, PartialEq, Eq)]
pub struct Field {
    pub tag: u8,
    pub width: usize,
    pub number: u64,
}

// The inner fields of a record: those in the first `count` places. Each number has at most eight bytes.
// stays: a count beside the places, since the number of fields differs by kind, there is no heap and memory is fixed.
#[derive(Clone, Copy)]
pub struct Fields {
    pub count: usize,
    pub items: [Field; FIELDS],
    ghost few: { count ≤ most_fields },
    ghost narrow: { all is_narrow (take count items) ≡ true },
}

// The field at the front of some bytes: its length, and its number, 0 of the list.
#[derive(Clone, Copy, PartialEq, Eq)]
pub struct Held {
    pub len: usize,
    pub number: u64,
}

// Where the list of a record stands and how many numbers it has.
#[derive(Clone, Copy, PartialEq, Eq)]
pub struct Place {
    pub at: usize,
    pub count: usize,
}

// What a walk over the inner fields finds: a number for each, and the list's place, which holds no number where no field is
// the list.
#[derive(Clone, Copy)]
pub struct Walk {
    pub numbers: [u64; FIELDS],
    pub list: Place,
}

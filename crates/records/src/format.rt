// The inner fields of records: the table of their tags, and a record's fields in their places.
ghost use Rattle.std.specs.Prelude.{◌≡◌, ◌≤◌, ◌++◌, ◌-◌, true, replicate};
ghost use Rattle.rules.specs.Lists.{all};
ghost use Rattle.records.specs.Format.{inner, is_narrow, most_fields, role_code};
ghost use Rattle.records.specs.Found.{fields_in};

use crate::{FIELDS, Field, Fields};
use rules::Role;

// Which inner field: its tag, and how many bytes its number has; none for the list, which stands beside the fields.
#[derive(Clone, Copy, PartialEq, Eq)]
pub struct Tag(pub u8, pub usize);

pub const CODE: Tag = Tag(0x00, 1);

pub const TIME: Tag = Tag(0x01, 8);

pub const ROLE: Tag = Tag(0x02, 1);

pub const EPOCH: Tag = Tag(0x03, 8);

pub const SLOT: Tag = Tag(0x04, 8);

pub const OBJECT: Tag = Tag(0x05, 8);

pub const CURRENCY: Tag = Tag(0x06, 2);

pub const LIST: Tag = Tag(0x07, 0);

pub const HOLD: Tag = Tag(0x08, 8);

pub const MANIFEST: Tag = Tag(0x09, 8);

pub const EXPIRY: Tag = Tag(0x0A, 8);

impl Tag {
    // The field of this tag that says the number.
    pub fn of(self, number: u64) -> Field
        ensures { result ≡ inner self.0 self.1 number }
    {
        Field {
            tag: self.0,
            width: self.1,
            number,
        }
    }
}

// The number that a record says a role by.
pub fn role_number(who: Role) -> u64
    ensures { result ≡ role_code who }
{
    match who {
        Role::Writer => 0,
        Role::Compactor => 1,
    }
}

// A record of these fields; the places behind them are 0.
pub fn fields_of<const N: usize>(first: [Field; N]) -> Fields
    requires few { N ≤ FIELDS }
    requires narrow { all is_narrow first ≡ true }
    ensures said { fields_in result ≡ first.entry }
    ensures places { result.items ≡ first.entry ++ replicate (most_fields - N) (inner 0 0 0) }
{
    let blank = Field {
        tag: 0,
        width: 0,
        number: 0,
    };
    let mut items = [blank; FIELDS];
    items[..N].copy_from_slice(&first);
    Fields { count: N, items }
}

// The types that every crate of the ledger shares. What they mean is in specs/, on plain lists: the refusal table, the
// step, the history, and demand 3 with its proof. The code, at the end, says which steps a record can say; `rows` has the
// rows that several kinds share.
#![tactic(auto)]

mod rows;

ghost use Rattle.std.specs.Prelude.{◌≡◌};
ghost use Rattle.rules.specs.Lists.{rising_above};
ghost use Rattle.rules.specs.Limits.{limits};
ghost use Rattle.rules.specs.Table.{expiry_fits, well_formed};
ghost use Rattle.rules.specs.Typed.{is_padded, request_of, can_say};

pub use rows::{Refusal, epoch_row, fence_row, slot_row};

// The limits of documents 01 and 02, each named once: the bits of an occupancy word and the words, so the objects stored;
// object numbers in a manifest; holds; kept manifests (each but the current one is held); the largest number of a currency.
pub const BITS: usize = 64;

pub const WORDS: usize = 4;

pub const PLACES: usize = WORDS * BITS;

pub const NAMES: usize = 64;

pub const HOLDS: usize = 8;

pub const MANIFESTS: usize = HOLDS + 1;

pub const LARGEST_CURRENCY: u16 = 999;

// Who writes: the writer of sheets and batches, or the compactor that merges them.
#[derive(Clone, Copy, PartialEq, Eq)]
pub enum Role {
    Writer,
    Compactor,
}

// What a step asks. COMMIT's list stands beside it, in the step.
#[derive(Clone, Copy, PartialEq, Eq)]
pub enum Kind {
    Fence {
        role: Role,
        slot: u64,
    },
    Put {
        role: Role,
        epoch: u64,
        object: u64,
        currency: u16,
    },
    Commit {
        epoch: u64,
        slot: u64,
    },
    Compact {
        epoch: u64,
        slot: u64,
        object: u64,
    },
    Hold {
        hold: u64,
        manifest: u64,
        expiry: u64,
    },
    Renew {
        hold: u64,
        expiry: u64,
    },
    Release {
        hold: u64,
    },
    List {
        hold: u64,
    },
    Look {
        currency: u16,
        hold: u64,
    },
    Collect,
}

// The object numbers that a manifest names: the first `count` places; the others are 0.
// stays: a count beside the places, since `is_well_formed` promises its answer for any count and any places, and there is no heap.
#[derive(Clone, Copy)]
pub struct NameList {
    pub count: usize,
    pub names: [u64; NAMES],
}

// A step is its time and one of ten kinds.
#[derive(Clone, Copy)]
pub struct Step {
    pub time: u64,
    pub kind: Kind,
    pub list: NameList,
}

// What a step is answered. Listed and Collected have a list beside them.
#[derive(Clone, Copy, PartialEq, Eq)]
pub enum Answer {
    // turned away, with the number of the refusal table
    // stays: a number, since `verdicts::write_verdict` promises its answer for every number.
    Refused(u8),
    // accepted, with the code alone: PUT, COMMIT, COMPACT, HOLD, RENEW, RELEASE
    Done,
    // FENCE: the new epoch
    Epoch(u64),
    // LIST: the manifest's number
    Listed(u64),
    // LOOK: the object
    Found(u64),
    // COLLECT
    Collected,
}

// Object numbers beside an answer: the first `count` places; the others are 0.
// stays: a count beside the places, since `write_verdict` promises its answer for any count and any places, and there is no heap.
#[derive(Clone, Copy)]
pub struct ObjectList {
    pub count: usize,
    pub objects: [u64; PLACES],
}

#[derive(Clone, Copy)]
pub struct Verdict {
    pub answer: Answer,
    pub list: ObjectList,
}

// A stored object. A free place is the one whose fields are all zero.
#[derive(Clone, Copy, PartialEq, Eq)]
pub struct Object {
    pub number: u64,
    pub role: Role,
    pub epoch: u64,
    // ISO 4217; 0 means a sales batch
    pub currency: u16,
    // whether a manifest has ever named it
    pub named: bool,
}

// A hold keeps a manifest until it expires (a snapshot in source document 000). Expiry 0 is never.
#[derive(Clone, Copy, PartialEq, Eq)]
pub struct Hold {
    pub number: u64,
    pub manifest: u64,
    pub expiry: u64,
}

// Whether the first `count` places say a list: there are that many, and the others are 0.
#[tactic(auto, unfolding(crate::specs::Typed::is_padded))]
pub fn is_padded(count: usize, places: &[u64]) -> bool
    ensures { result ≡ is_padded count places.now }
{
    count <= places.len() && places[count..].iter().all(|place| 0 == *place)
}

// Whether the numbers rise strictly from above 0.
#[tactic(auto, unfolding(crate::specs::Lists::rising_above))]
pub fn is_rising(list: &[u64]) -> bool
    ensures { result ≡ rising_above 0 list.now }
{
    let mut floor: u64 = 0;
    for n in list {
        if *n <= floor {
            return false;
        }
        floor = *n;
    }
    true
}

// Whether a hold may expire then: never, or not before the step's time.
fn expiry_fits(time: u64, expiry: u64) -> bool
    ensures { result ≡ expiry_fits time expiry }
{
    expiry == 0 || time <= expiry
}

// Whether a record can say the kind with this list beside it. Only COMMIT has a list.
#[tactic(auto, using(crate::proofs::Typed::length_none), unfolding(crate::specs::Table::well_formed, crate::specs::Lists::conj))]
fn is_formed(time: u64, kind: Kind, list: &[u64]) -> bool
    ensures { result ≡ well_formed limits time kind list.now }
{
    let none = list.is_empty();
    match kind {
        Kind::Fence { .. } | Kind::List { .. } | Kind::Collect => none,
        Kind::Put {
            object,
            currency,
            ..
        } => none && object != 0 && currency <= LARGEST_CURRENCY,
        Kind::Commit { .. } => is_rising(list) && list.len() <= NAMES,
        Kind::Compact { object, .. } => none && object != 0,
        Kind::Hold { hold, expiry, .. } | Kind::Renew { hold, expiry } => {
            none && hold != 0 && expiry_fits(time, expiry)
        }
        Kind::Release { hold } => none && hold != 0,
        Kind::Look { currency, .. } => none && currency != 0 && currency <= LARGEST_CURRENCY,
    }
}

// Whether a step is one that a record can say: row 2 of the refusal table does not apply.
pub fn is_well_formed(step: Step) -> bool
    ensures { result ≡ can_say (request_of step) }
{
    let list = step.list;
    is_padded(list.count, &list.names) && is_formed(step.time, step.kind, &list.names[..list.count])
}

// Step records.
ghost use Rattle.std.specs.Prelude.{◌≡◌, ◌+◌, ◌*◌, ◌≤◌, length};
ghost use Rattle.records.specs.Found.{fields_in, found_by};
ghost use Rattle.records.specs.Steps.{outer_tag, fields_of, role_of, kind_from, request_of_walk, decode_step, step_read};
ghost use Rattle.records.specs.Writing.{step_writing};

use crate::format::{
    CURRENCY, EPOCH, EXPIRY, HOLD, LIST, MANIFEST, OBJECT, ROLE, SLOT, TIME, fields_of, role_number,
};
use crate::walking::{is_whole, walk};
use crate::writing::write_record;
use crate::{FIELDS, Fields, Walk, WriteError};
use rules::{Kind, NAMES, NameList, Role, Step};

// The table of the ten kinds

fn outer_tag(kind: Kind) -> u8
    ensures { result ≡ outer_tag kind }
{
    match kind {
        Kind::Fence { .. } => 0x10,
        Kind::Put { .. } => 0x11,
        Kind::Commit { .. } => 0x12,
        Kind::Compact { .. } => 0x13,
        Kind::Hold { .. } => 0x14,
        Kind::Renew { .. } => 0x15,
        Kind::Release { .. } => 0x16,
        Kind::List { .. } => 0x17,
        Kind::Look { .. } => 0x18,
        Kind::Collect => 0x19,
    }
}

#[tactic(auto, unfolding(rules::specs::Lists::all))]
fn step_fields(at: u64, kind: Kind) -> Fields
    ensures { fields_in result ≡ fields_of at kind }
{
    let t = TIME.of(at);
    match kind {
        Kind::Fence { role, slot } => fields_of([t, ROLE.of(role_number(role)), SLOT.of(slot)]),
        Kind::Put {
            role,
            epoch,
            object,
            currency,
        } => fields_of([
            t,
            ROLE.of(role_number(role)),
            EPOCH.of(epoch),
            OBJECT.of(object),
            CURRENCY.of(u64::from(currency)),
        ]),
        Kind::Commit { epoch, slot } => fields_of([t, EPOCH.of(epoch), SLOT.of(slot), LIST.of(0)]),
        Kind::Compact {
            epoch,
            slot,
            object,
        } => fields_of([t, EPOCH.of(epoch), SLOT.of(slot), OBJECT.of(object)]),
        Kind::Hold {
            hold,
            manifest,
            expiry,
        } => fields_of([t, HOLD.of(hold), MANIFEST.of(manifest), EXPIRY.of(expiry)]),
        Kind::Renew { hold, expiry } => fields_of([t, HOLD.of(hold), EXPIRY.of(expiry)]),
        Kind::Release { hold } | Kind::List { hold } => fields_of([t, HOLD.of(hold)]),
        Kind::Look { currency, hold } => {
            fields_of([t, CURRENCY.of(u64::from(currency)), HOLD.of(hold)])
        }
        Kind::Collect => fields_of([t]),
    }
}

// Reading

// The role that a number says.
pub fn role_from(n: u64) -> Option<Role>
    ensures { result ≡ role_of n }
{
    match n {
        0 => Some(Role::Writer),
        1 => Some(Role::Compactor),
        _ => None,
    }
}

// The kind of an outer tag with the numbers of its fields, the time's first.
#[tactic(auto, unfolding(crate::specs::Steps::kind_from))]
fn kind_from(tag: u8, v: [u64; FIELDS]) -> Option<Kind>
    ensures { result ≡ kind_from tag v }
{
    let [_, a, b, c, d, _] = v;
    let kind = match tag {
        0x10 => Kind::Fence {
            role: role_from(a)?,
            slot: b,
        },
        0x11 => Kind::Put {
            role: role_from(a)?,
            epoch: b,
            object: c,
            currency: (d % 65536) as u16,
        },
        0x12 => Kind::Commit { epoch: a, slot: b },
        0x13 => Kind::Compact {
            epoch: a,
            slot: b,
            object: c,
        },
        0x14 => Kind::Hold {
            hold: a,
            manifest: b,
            expiry: c,
        },
        0x15 => Kind::Renew { hold: a, expiry: b },
        0x16 => Kind::Release { hold: a },
        0x17 => Kind::List { hold: a },
        0x18 => Kind::Look {
            currency: (a % 65536) as u16,
            hold: b,
        },
        0x19 => Kind::Collect,
        _ => return None,
    };
    Some(kind)
}

// The step of a walk over a record's value.
fn step_of(tag: u8, value: &[u8], w: Walk) -> Option<Step>
    requires { w.list.at + 8 * w.list.count ≤ length value.now }
    ensures { result ≡ step_read (request_of_walk tag (found_by (Some w) value.now)) }
{
    let count = w.list.count;
    if NAMES < count {
        return None;
    }
    let kind = kind_from(tag, w.numbers)?;
    let mut names = [0; NAMES];
    fields::read_words(&value[w.list.at..], &mut names[..count]);
    let step = Step {
        time: w.numbers[0],
        kind,
        list: NameList { count, names },
    };
    rules::is_well_formed(step).then_some(step)
}

// Takes all the bytes lent as one record. None is the paper's number 2.
pub fn read_step(bytes: &[u8]) -> Option<Step>
    ensures { result ≡ step_read (decode_step bytes.now) }
{
    if !is_whole(bytes) {
        return None;
    }
    let tag = bytes[0];
    let blank = kind_from(tag, [0; FIELDS])?;
    let value = &bytes[3..];
    let w = walk(value, step_fields(0, blank))?;
    step_of(tag, value, w)
}

// Writes a step's record at the start of `out`; the bytes beyond it stay. Where it refuses nothing is written.
pub fn write_step(step: Step, out: &mut [u8]) -> Result<usize, WriteError>
    ensures { step_writing step out.old ≡ record { answer = result; buffer = out.new } }
{
    if !rules::is_well_formed(step) {
        return Err(WriteError::Malformed);
    }
    let fields = step_fields(step.time, step.kind);
    let names = &step.list.names[..step.list.count];
    write_record(outer_tag(step.kind), fields, names, out)
}

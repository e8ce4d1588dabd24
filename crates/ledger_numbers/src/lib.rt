// A ledger as numbers, for callers that see no struct: as many as LEDGER, in the order that include/cuudhaqil.h has.
#![tactic(auto)]

ghost use Rattle.std.specs.Prelude.{◌≡◌, ℕ, List, ◌+◌, ◌*◌, ◌≤◌, length, drop};
ghost use Rattle.rules.specs.Limits.{limits, manifest_limit};
ghost use Rattle.rules.specs.Lists.{conj};
ghost use Rattle.fields.specs.Fields.{over};
ghost use Rattle.ledger_numbers.specs.Numbers.{role_number, flag, flat, each, object_size, manifest_size, hold_size, role_from, object_from, manifest_from, hold_from, can_be, is_ledger, ledger_said, no_manifest, ledger_from, laid_back, object_numbers, manifest_numbers, hold_numbers, ledger_numbers, ledger_size};

use holds::Holds;
use ledger::Ledger;
use manifests::{KeptManifest, Manifests};
use objects::Objects;
use rules::{Hold, Object, Role, WORDS};
use std::array;

// How many numbers an object, a manifest and a hold have; a manifest's names stand behind the others.
pub const OBJECT: usize = 5;

pub const NAMES_AT: usize = 4;

pub const MANIFEST: usize = NAMES_AT + Ledger::NAMES;

pub const HOLD: usize = 3;

// Where the parts of a ledger begin: clock and highest number collected first, then the occupancy words, the places, the
// count of manifests and their places, the count of holds and theirs.
pub const OCCUPANCY_AT: usize = 2;

pub const OBJECTS_AT: usize = OCCUPANCY_AT + WORDS;

pub const KEPT_AT: usize = OBJECTS_AT + Ledger::PLACES * OBJECT;

pub const MANIFESTS_AT: usize = KEPT_AT + 1;

pub const HELD_AT: usize = MANIFESTS_AT + Ledger::MANIFESTS * MANIFEST;

pub const HOLDS_AT: usize = HELD_AT + 1;

// The largest number of 16 bits, which a currency has.
const LARGEST_CURRENCY: u64 = u16::MAX as u64;

// How many numbers a ledger has.
pub const LEDGER: usize = HOLDS_AT + Ledger::HOLDS * HOLD;

// Lays the numbers over the start of the others.
pub fn fill(from: &[u64], to: &mut [u64])
    requires { length from.now ≤ length to.old }
    ensures { to.new ≡ over from.now to.old }
{
    to[..from.len()].copy_from_slice(from);
}

pub fn role_number(role: Role) -> u64
    ensures { result ≡ role_number role }
{
    match role {
        Role::Writer => 0,
        Role::Compactor => 1,
    }
}

fn role_from(n: u64) -> Role
    ensures { result ≡ role_from n }
{
    if n == 0 {
        Role::Writer
    } else {
        Role::Compactor
    }
}

// A part of a ledger that stands as SIZE numbers: any that many say one, and each has its own.
trait Numbers {
    ghost SIZE: { ℕ };

    ghost said: { List ℕ → Self };

    ghost numbers: { Self → List ℕ };

    const SIZE: usize;

    fn from_numbers(v: &[u64]) -> Self
        requires { SIZE ≤ length v.now }
        ensures { result ≡ said v.now };

    fn put(&self, out: &mut [u64])
        requires { length out.old ≡ SIZE }
        ensures { out.new ≡ numbers self.now };
}

impl Numbers for Object {
    ghost SIZE = { object_size };

    ghost said = { object_from };

    ghost numbers = { object_numbers };

    const SIZE: usize = OBJECT;

    fn from_numbers(v: &[u64]) -> Self {
        Object {
            number: v[0],
            role: role_from(v[1]),
            epoch: v[2],
            currency: (v[3] % (LARGEST_CURRENCY + 1)) as u16,
            named: v[4] != 0,
        }
    }

    fn put(&self, out: &mut [u64]) {
        out[0] = self.number;
        out[1] = role_number(self.role);
        out[2] = self.epoch;
        out[3] = u64::from(self.currency);
        out[4] = u64::from(self.named);
    }
}

impl Numbers for KeptManifest {
    ghost SIZE = { manifest_size };

    ghost said = { manifest_from };

    ghost numbers = { manifest_numbers };

    const SIZE: usize = MANIFEST;

    fn from_numbers(v: &[u64]) -> Self {
        let mut names = [0; Ledger::NAMES];
        names.copy_from_slice(&v[NAMES_AT..MANIFEST]);
        KeptManifest {
            number: v[0],
            writer: v[1],
            compactor: v[2],
            count: v[3] as usize,
            names,
        }
    }

    fn put(&self, out: &mut [u64]) {
        out[0] = self.number;
        out[1] = self.writer;
        out[2] = self.compactor;
        out[3] = self.count as u64;
        out[NAMES_AT..MANIFEST].copy_from_slice(&self.names);
    }
}

impl Numbers for Hold {
    ghost SIZE = { hold_size };

    ghost said = { hold_from };

    ghost numbers = { hold_numbers };

    const SIZE: usize = HOLD;

    fn from_numbers(v: &[u64]) -> Self {
        Hold {
            number: v[0],
            manifest: v[1],
            expiry: v[2],
        }
    }

    fn put(&self, out: &mut [u64]) {
        out[0] = self.number;
        out[1] = self.manifest;
        out[2] = self.expiry;
    }
}

// In

// The item in place i, and all N of them.
fn item_at<T: Numbers>(v: &[u64], i: usize) -> T
    requires { T.SIZE * i + T.SIZE ≤ length v.now }
    ensures { result ≡ T.said (drop (T.SIZE * i) v.now) }
{
    T::from_numbers(&v[T::SIZE * i..])
}

fn items_from<T: Numbers, const N: usize>(v: &[u64]) -> [T; N]
    requires { N * T.SIZE ≤ length v.now }
    ensures { result ≡ each T.said T.SIZE N v.now }
{
    array::from_fn(|i| item_at(v, i))
}

// What numbers say that a ledger can be.
fn ledger_said(v: &[u64]) -> Ledger
    requires { ledger_size ≤ length v.now }
    ensures { result ≡ ledger_said v.now }
{
    let mut occupancy = [0; WORDS];
    occupancy.copy_from_slice(&v[OCCUPANCY_AT..OBJECTS_AT]);
    Ledger {
        clock: v[0],
        collected: v[1],
        objects: Objects {
            occupancy,
            items: items_from(&v[OBJECTS_AT..]),
        },
        manifests: Manifests {
            count: v[KEPT_AT] as usize,
            items: items_from(&v[MANIFESTS_AT..]),
        },
        holds: Holds {
            count: v[HELD_AT] as usize,
            items: items_from(&v[HOLDS_AT..]),
        },
    }
}

// Whether a place can be an object's: its role and its mark are 0 or 1, and its currency has 16 bits.
#[tactic(auto, unfolding(rules::specs::Lists::conj))]
fn can_be(place: &[u64; OBJECT]) -> bool
    ensures { result ≡ can_be place.now }
{
    place[1] <= 1 && place[3] <= LARGEST_CURRENCY && place[4] <= 1
}

// Whether the numbers can be a ledger's: every place can be an object's.
fn is_ledger(v: &[u64]) -> bool
    requires { ledger_size ≤ length v.now }
    ensures { result ≡ is_ledger v.now }
{
    let (places, _) = v[OBJECTS_AT..KEPT_AT].as_chunks::<OBJECT>();
    places.iter().all(can_be)
}

// The fresh ledger without its manifest, which is not sound.
fn no_manifest() -> Ledger
    ensures { result ≡ no_manifest }
{
    let mut ledger = Ledger::fresh();
    ledger.manifests.count = 0;
    ledger
}

// The ledger that the numbers say. Numbers that no ledger can be are never cut to what it can: they are a ledger that is not
// sound.
#[tactic(auto, unfolding(crate::specs::Numbers::ledger_from))]
pub fn ledger_from(v: &[u64]) -> Ledger
    requires { ledger_size ≤ length v.now }
    ensures { result ≡ ledger_from v.now }
{
    if is_ledger(v) {
        ledger_said(v)
    } else {
        no_manifest()
    }
}

// Out

// The items' numbers, one item behind the other.
fn put_items<T: Numbers>(items: &[T], out: &mut [u64])
    requires { length out.old ≡ length items.now * T.SIZE }
    ensures { out.new ≡ flat T.numbers items.now }
{
    for (i, item) in items.iter().enumerate() {
        let at = T::SIZE * i;
        item.put(&mut out[at..at + T::SIZE]);
    }
}

// The ledger's numbers, in as many places as they are.
pub fn put_ledger(ledger: Ledger, out: &mut [u64])
    requires { length out.old ≡ ledger_size }
    ensures { out.new ≡ ledger_numbers ledger }
{
    out[0] = ledger.clock;
    out[1] = ledger.collected;
    out[OCCUPANCY_AT..OBJECTS_AT].copy_from_slice(&ledger.objects.occupancy);
    put_items(&ledger.objects.items, &mut out[OBJECTS_AT..KEPT_AT]);
    out[KEPT_AT] = ledger.manifests.count as u64;
    put_items(&ledger.manifests.items, &mut out[MANIFESTS_AT..HELD_AT]);
    out[HELD_AT] = ledger.holds.count as u64;
    put_items(&ledger.holds.items, &mut out[HOLDS_AT..LEDGER]);
}

// Lays the next ledger's numbers over those that it came from; numbers that no ledger can be stay as they are.
#[tactic(auto, unfolding(crate::specs::Numbers::laid_back))]
pub fn lay_back(ledger: Ledger, numbers: &mut [u64])
    requires { ledger_size ≤ length numbers.old }
    ensures { numbers.new ≡ laid_back ledger numbers.old }
{
    if is_ledger(numbers) {
        put_ledger(ledger, &mut numbers[..LEDGER]);
    }
}

// The holds of a ledger (a hold is a snapshot in source document 000): at most eight, packed in rising number.
#![tactic(auto)]

ghost use Rattle.std.specs.Prelude.{◌≡◌, Bool, true, [], map, ◌≤◌, ◌<◌};
ghost use Rattle.rules.specs.declared.Hold.{Hold};
ghost use Rattle.arrays.specs.Arrays.{Tests};
ghost use Rattle.rules.specs.Limits.{limits};
ghost use Rattle.rules.specs.Lists.{keep, all, rising_above};
ghost use Rattle.rules.specs.Words.{live};
ghost use Rattle.rules.specs.Step.{insert_hold, renewed, other};
ghost use Rattle.holds.specs.Holds.{holds_of, lay_holds, is_laid, has_number, names_manifest, manifest_by, numbers};

use rules::{HOLDS, Hold};

// The first `count` places hold; the others are all zero.
// stays: a count beside the places, since `Ledger::is_sound` promises its answer for any count and any places, and there is no heap.
#[derive(Clone, Copy)]
pub struct Holds {
    pub count: usize,
    pub items: [Hold; HOLDS],
}

// A place that holds nothing is all zero.
const NO_HOLD: Hold = Hold {
    number: 0,
    manifest: 0,
    expiry: 0,
};

// A hold is live while its expiry is 0 or not below the time.
#[tactic(auto, unfolding(rules::specs::Words::live))]
fn is_live(time: u64, hold: Hold) -> bool
    ensures { result ≡ live time hold }
{
    hold.expiry == 0 || time <= hold.expiry
}

// The hold, with a new expiry where it has this number.
fn with_expiry(hold: Hold, number: u64, expiry: u64) -> Hold
    ensures { result ≡ renewed number expiry hold }
{
    if hold.number == number {
        Hold { expiry, ..hold }
    } else {
        hold
    }
}

impl Holds {
    #[tactic(auto, unfolding(arrays::specs::Arrays::pad))]
    pub fn none() -> Self
        ensures { result ≡ lay_holds [] }
    {
        Holds {
            count: 0,
            items: [NO_HOLD; HOLDS],
        }
    }

    // The places that hold, all where the count is beyond them.
    fn held(&self) -> &[Hold]
        ensures { result.now ≡ holds_of self.now }
    {
        &self.items[..self.count.min(HOLDS)]
    }

    // Whether the places behind the holds are all zero, of any value.
    #[tactic(auto, unfolding(crate::specs::Holds::is_laid))]
    pub fn is_laid(self) -> bool
        ensures { result ≡ is_laid self }
    {
        self.count <= HOLDS && self.items[self.count..].iter().all(|hold| *hold == NO_HOLD)
    }

    // Whether the numbers rise strictly and are not 0.
    #[tactic(auto, unfolding(rules::specs::Lists::rising_above))]
    pub fn is_rising(self) -> bool
        ensures { result ≡ rising_above 0 (numbers (holds_of self)) }
    {
        let mut last = 0;
        for hold in self.held() {
            if hold.number <= last {
                return false;
            }
            last = hold.number;
        }
        true
    }

    // Whether every hold is live at the time.
    pub fn all_live(self, time: u64) -> bool
        ensures { result ≡ all (live time) (holds_of self) }
    {
        self.held().iter().all(|hold| is_live(time, *hold))
    }

    // Whether a hold has this number.
    pub fn has_number(self, number: u64) -> bool
        ensures { result ≡ has_number (holds_of self) number }
    {
        self.held().iter().any(|hold| number == hold.number)
    }

    // Whether a hold names this manifest.
    pub fn names_manifest(self, manifest: u64) -> bool
        ensures { result ≡ names_manifest (holds_of self) manifest }
    {
        self.held().iter().any(|hold| manifest == hold.manifest)
    }

    // The manifest that the hold of this number names, 0 where there is none.
    // stays: 0 for none, since the definition `manifest_by` has it, on which `Ledger::read_by` rests.
    pub fn manifest_by(self, number: u64) -> u64
        ensures { result ≡ manifest_by (holds_of self) number }
    {
        self.held()
            .iter()
            .find(|hold| number == hold.number)
            .map_or(0, |hold| hold.manifest)
    }

    // The holds that pass the test.
    fn retained<F: Fn(&Hold) -> bool>(self, keeps: F) -> Self
        requires { F.IsAlwaysCallable keeps }
        ensures { (p : Hold → Bool) → Tests F.Fn p keeps → result ≡ lay_holds (keep p (holds_of self)) }
    {
        let mut next = Holds::none();
        next.count = arrays::pack(self.held(), keeps, &mut next.items);
        next
    }

    // The holds that are live at the time.
    pub fn live(self, time: u64) -> Self
        ensures { result ≡ lay_holds (keep (live time) (holds_of self)) }
    {
        self.retained(|hold| is_live(time, *hold))
    }

    // The holds but the one of this number.
    pub fn release(self, number: u64) -> Self
        ensures { result ≡ lay_holds (keep (other number) (holds_of self)) }
    {
        self.retained(|hold| hold.number != number)
    }

    // The holds, with a new expiry for the one of this number.
    pub fn renew(self, number: u64, expiry: u64) -> Self
        ensures { result ≡ lay_holds (map (renewed number expiry) (holds_of self)) }
    {
        let held = self.held();
        let mut next = Holds::none();
        for (i, hold) in held.iter().enumerate() {
            next.items[i] = with_expiry(*hold, number, expiry);
        }
        next.count = held.len();
        next
    }

    // The holds with one more, in rising number.
    pub fn insert(self, hold: Hold) -> Self
        requires { (is_laid self ≡ true) × (self.count < limits.holds) × (rising_above 0 (numbers (holds_of self)) ≡ true) }
        ensures { result ≡ lay_holds (insert_hold hold (holds_of self)) }
    {
        let mut next = self;
        arrays::insert(
            &mut next.items,
            self.count,
            hold,
            |a, b| a.number < b.number,
        );
        next.count += 1;
        next
    }
}

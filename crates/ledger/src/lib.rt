// The ledger: it goes in and the next ledger comes back; nothing is kept elsewhere (document 01, "What the ledger holds").
#![tactic(auto)]

mod change;
mod collect;
mod sound;
mod steps;

ghost use Rattle.std.specs.Prelude.{◌≡◌};
ghost use Rattle.rules.specs.State.{fresh};
ghost use Rattle.ledger.specs.Ledger.{lay};

use holds::Holds;
use manifests::Manifests;
use objects::Objects;
use rules::Verdict;

#[derive(Clone, Copy)]
pub struct Ledger {
    pub clock: u64,
    // the highest object number ever collected
    pub collected: u64,
    pub objects: Objects,
    pub manifests: Manifests,
    pub holds: Holds,
}

// A step's answer, with the next ledger inside it.
#[derive(Clone, Copy)]
pub struct StepAnswer {
    pub verdict: Verdict,
    pub ledger: Ledger,
}

impl Ledger {
    // Objects stored, names in a manifest, kept manifests and holds.
    pub const PLACES: usize = rules::PLACES;

    pub const NAMES: usize = rules::NAMES;

    pub const MANIFESTS: usize = rules::MANIFESTS;

    pub const HOLDS: usize = rules::HOLDS;

    // Clock 0, nothing collected, no objects or holds, and manifest 0 with both epochs 0 and an empty list.
    pub fn fresh() -> Self
        ensures { result ≡ lay fresh }
    {
        Ledger {
            clock: 0,
            collected: 0,
            objects: Objects::none(),
            manifests: Manifests::first(),
            holds: Holds::none(),
        }
    }
}

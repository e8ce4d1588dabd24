// Soundness (row 1): any ledger value to a test.
ghost use Rattle.std.specs.Prelude.{◌≡◌, true, ◌≤◌, take};
ghost use Rattle.rules.specs.Limits.{limits};
ghost use Rattle.rules.specs.Lists.{all};
ghost use Rattle.holds.specs.Holds.{holds_of};
ghost use Rattle.manifests.specs.Manifests.{manifests_of, is_laid as manifests_laid};
ghost use Rattle.ledger.specs.Ledger.{is_laid_out, is_sound};
ghost use Rattle.ledger.specs.Parts.{list_sound, list_sound_by, hold_kept, objects_sound, manifests_sound, holds_sound};

use crate::Ledger;
use holds::Holds;
use manifests::{KeptManifest, Manifests};
use objects::Objects;

// Whether a manifest's list rises strictly without 0, and its objects are among those that are stored and marked as named.
#[tactic(auto, unfolding(rules::specs::Lists::conj))]
fn list_sound(manifest: KeptManifest, named: &[u64]) -> bool
    requires { manifest.count ≤ limits.names }
    ensures { result ≡ list_sound_by named.now manifest }
{
    let names = &manifest.names[..manifest.count];
    rules::is_rising(names) && objects::all_among(named, names)
}

// Whether every kept list is sound.
#[tactic(auto, using(manifests::proofs::Places::few), unfolding(rules::specs::Lists::all))]
fn lists_sound(manifests: Manifests, objects: Objects) -> bool
    requires { manifests_laid manifests ≡ true }
    ensures { result ≡ all (list_sound objects.items) (take manifests.count manifests.items) }
{
    let named = objects.named();
    for manifest in &manifests.items[..manifests.count] {
        if !list_sound(*manifest, &named) {
            return false;
        }
    }
    true
}

// Whether every hold names a kept manifest.
fn holds_kept(holds: Holds, manifests: Manifests) -> bool
    requires { (manifests_laid manifests ≡ true) × (holds.count ≤ limits.holds) }
    ensures { result ≡ all (hold_kept (manifests_of manifests)) (holds_of holds) }
{
    holds.items[..holds.count]
        .iter()
        .all(|hold| manifests.has_number(hold.manifest))
}

impl Ledger {
    // Whether the layout is kept, of any value.
    #[tactic(auto, unfolding(rules::specs::Lists::conj))]
    fn is_laid_out(self) -> bool
        ensures { result ≡ is_laid_out self }
    {
        self.objects.is_laid() && self.manifests.is_laid() && self.holds.is_laid()
    }

    // Whether the ledger is sound, of any value.
    pub fn is_sound(self) -> bool
        ensures { result ≡ is_sound self }
    {
        self.is_laid_out() && self.objects_sound() && self.manifests_sound() && self.holds_sound()
    }

    #[tactic(auto, using(crate::proofs::View::laid_parts), unfolding(crate::specs::Parts::objects_sound, rules::specs::Lists::conj))]
    fn objects_sound(self) -> bool
        requires { is_laid_out self ≡ true }
        ensures { result ≡ objects_sound self }
    {
        let current = self.manifests.current();
        self.objects.places_sound(current.writer, current.compactor) && self.objects.is_distinct()
    }

    #[tactic(auto, using(crate::proofs::View::laid_parts, holds::proofs::Places::few), unfolding(crate::specs::Parts::manifests_sound, rules::specs::Lists::conj))]
    fn manifests_sound(self) -> bool
        requires { is_laid_out self ≡ true }
        ensures { result ≡ manifests_sound self }
    {
        self.manifests.is_ordered()
            && lists_sound(self.manifests, self.objects)
            && self.manifests.older_held(self.holds)
    }

    #[tactic(auto, using(crate::proofs::View::laid_parts, holds::proofs::Places::few), unfolding(crate::specs::Parts::holds_sound, rules::specs::Lists::conj))]
    fn holds_sound(self) -> bool
        requires { is_laid_out self ≡ true }
        ensures { result ≡ holds_sound self }
    {
        self.holds.is_rising()
            && holds_kept(self.holds, self.manifests)
            && self.holds.all_live(self.clock)
    }
}

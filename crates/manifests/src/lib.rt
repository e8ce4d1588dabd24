// The kept manifests of a ledger: one to nine, packed in rising number; the last is current.
#![tactic(auto)]

ghost use Rattle.std.specs.Prelude.{◌≡◌, true, [], ◌∷◌, ◌++◌, map, ◌≤◌, take, drop};
ghost use Rattle.rules.specs.Limits.{limits, manifest_limit};
ghost use Rattle.rules.specs.Lists.{keep, all};
ghost use Rattle.rules.specs.State.{first_manifest};
ghost use Rattle.rules.specs.Step.{held_by};
ghost use Rattle.rules.specs.Sound.{ordered};
ghost use Rattle.holds.specs.Holds.{holds_of};
ghost use Rattle.manifests.specs.Manifests.{lay_manifest, manifest_of, manifests_of, lay_manifests, current_of, older_of, is_list_laid, is_no_manifest, is_laid, epochs_follow, has_number, numbered, Repackable};
ghost use Rattle.manifests.specs.Reach.{names_at, counts_at, lists_in, Searchable, reach_of};

use holds::Holds;
use rules::{MANIFESTS, NAMES};

// The names are the first `count` places; the others are 0.
// stays: a count beside the places, here and in `Manifests`, since `Ledger::is_sound` promises its answer for any count and any
// places, and there is no heap.
#[derive(Clone, Copy)]
pub struct KeptManifest {
    pub number: u64,
    pub writer: u64,
    pub compactor: u64,
    pub count: usize,
    pub names: [u64; NAMES],
}

// The first `count` places; the others are all zero.
#[derive(Clone, Copy)]
pub struct Manifests {
    pub count: usize,
    pub items: [KeptManifest; MANIFESTS],
}

// What the reach test finds, and how many names of the list in each place it read.
// stays: no Option: `reach_of` promises what was read where nothing is found too.
#[derive(Clone, Copy)]
pub struct Reach {
    pub found: bool,
    pub reads: [usize; MANIFESTS],
}

// A place that is all zero; it is also manifest 0 of the fresh ledger.
const ZERO: KeptManifest = KeptManifest {
    number: 0,
    writer: 0,
    compactor: 0,
    count: 0,
    names: [0; NAMES],
};

// Whether a place is all zero.
#[tactic(auto, unfolding(crate::specs::Manifests::is_no_manifest, rules::specs::Lists::conj))]
fn is_no_manifest(manifest: &KeptManifest) -> bool
    ensures { result ≡ is_no_manifest manifest.now }
{
    manifest.number == 0
        && manifest.writer == 0
        && manifest.compactor == 0
        && manifest.count == 0
        && rules::is_padded(manifest.count, &manifest.names)
}

// Whether the two epochs add to at most the number, and neither is below the one before.
#[tactic(auto, unfolding(crate::specs::Manifests::epochs_follow, rules::specs::Lists::conj))]
fn follows(manifest: &KeptManifest, writer: u64, compactor: u64) -> bool
    ensures { result ≡ epochs_follow writer compactor (manifest_of manifest.now) }
{
    writer <= manifest.writer
        && compactor <= manifest.compactor
        && manifest.writer <= manifest.number
        && manifest.compactor <= manifest.number - manifest.writer
}

impl Manifests {
    // Manifest 0 alone, with an empty list.
    pub fn first() -> Self
        ensures { result ≡ lay_manifests (first_manifest ∷ []) }
    {
        Manifests {
            count: 1,
            items: [ZERO; MANIFESTS],
        }
    }

    // The places that hold a kept manifest.
    fn kept(&self) -> &[KeptManifest]
        requires { self.now.count ≤ manifest_limit limits }
        ensures { result.now ≡ take self.now.count self.now.items }
    {
        &self.items[..self.count]
    }

    // Whether the unused places are all zero, of any value.
    #[tactic(auto, unfolding(crate::specs::Manifests::is_laid, rules::specs::Lists::conj))]
    pub fn is_laid(self) -> bool
        ensures { result ≡ is_laid self }
    {
        1 <= self.count && self.count <= MANIFESTS && self.lists_laid() && self.rest_laid()
    }

    // Whether behind each list all is 0.
    fn lists_laid(&self) -> bool
        requires { self.now.count ≤ manifest_limit limits }
        ensures { result ≡ all is_list_laid (take self.now.count self.now.items) }
    {
        self.kept()
            .iter()
            .all(|kept| rules::is_padded(kept.count, &kept.names))
    }

    // Whether the places behind the kept manifests are all zero.
    fn rest_laid(&self) -> bool
        requires { self.now.count ≤ manifest_limit limits }
        ensures { result ≡ all is_no_manifest (drop self.now.count self.now.items) }
    {
        self.items[self.count..].iter().all(is_no_manifest)
    }

    // Whether numbers rise, the two epochs of each add to at most its number, and neither falls. No sum may wrap. The first may
    // have any number.
    #[tactic(auto, using(crate::proofs::Places::few, crate::proofs::Places::some))]
    pub fn is_ordered(self) -> bool
        requires { is_laid self ≡ true }
        ensures { result ≡ ordered 0 0 0 (manifests_of self) }
    {
        let kept = self.kept();
        follows(&kept[0], 0, 0)
            && kept.iter().zip(&kept[1..]).all(|(before, next)| before.number < next.number
                && follows(next, before.writer, before.compactor))
    }

    // Whether a hold names each manifest but the current one.
    #[tactic(auto, using(crate::proofs::Places::few, crate::proofs::Places::some))]
    pub fn older_held(self, holds: Holds) -> bool
        requires { (is_laid self ≡ true) × (holds.count ≤ limits.holds) }
        ensures { result ≡ all (held_by (holds_of holds)) (older_of self) }
    {
        self.items[..self.count - 1]
            .iter()
            .all(|older| holds.names_manifest(older.number))
    }

    // Whether a kept manifest has this number.
    #[tactic(auto, using(crate::proofs::Places::few))]
    pub fn has_number(self, number: u64) -> bool
        requires { is_laid self ≡ true }
        ensures { result ≡ has_number (manifests_of self) number }
    {
        self.kept().iter().any(|kept| number == kept.number)
    }

    // The kept manifest of this number; where there is none, manifest 0 with an empty list.
    // stays: manifest 0 for none, since the definition `numbered` has it, on which `Ledger::read_by` rests.
    #[tactic(auto, using(crate::proofs::Places::few))]
    pub fn numbered(self, number: u64) -> KeptManifest
        requires { is_laid self ≡ true }
        ensures { result ≡ lay_manifest (numbered (manifests_of self) number) }
    {
        self.kept()
            .iter()
            .find(|kept| number == kept.number)
            .copied()
            .unwrap_or(ZERO)
    }

    // The current manifest is the last.
    #[tactic(auto, using(crate::proofs::Places::few, crate::proofs::Places::some))]
    pub fn current(self) -> KeptManifest
        requires { is_laid self ≡ true }
        ensures { result ≡ current_of self }
    {
        self.items[self.count - 1]
    }

    // The names in the places of the manifests, and how many each has. Whoever tests many objects lends them, and copies no manifest.
    // stays: a loop: `from_fn` was tried, and the proof did not close, for it learns nothing of an array that a closure returns.
    pub fn names(self) -> [[u64; NAMES]; MANIFESTS]
        ensures { result ≡ names_at self.items }
    {
        let mut names = [[0; NAMES]; MANIFESTS];
        for (i, manifest) in self.items.iter().enumerate() {
            names[i] = manifest.names;
        }
        names
    }

    pub fn counts(self) -> [usize; MANIFESTS]
        ensures { result ≡ counts_at self.items }
    {
        let mut counts = [0; MANIFESTS];
        for (i, manifest) in self.items.iter().enumerate() {
            counts[i] = manifest.count;
        }
        counts
    }

    // Of the first n manifests those that a hold names, and behind them `last`, which is then current.
    #[tactic(auto, using(crate::proofs::Places::few))]
    pub fn repacked(self, n: usize, holds: Holds, last: KeptManifest) -> Self
        requires { Repackable self n holds last }
        ensures { result ≡ lay_manifests (keep (held_by (holds_of holds)) (map manifest_of (take n self.items)) ++ (manifest_of last ∷ [])) }
    {
        let mut items = [ZERO; MANIFESTS];
        let count = arrays::pack(
            &self.items[..n],
            |kept| holds.names_manifest(kept.number),
            &mut items,
        );
        items[count] = last;
        Manifests {
            count: count + 1,
            items,
        }
    }
}

// Whether one of these lists names the object, and how many names of each were read to tell, counted where they are read.
// A sound list rises, so it is searched by halves; the loops are left by the label once the object is found.
// stays: nested loops left by a label: a rule of the project (docs/DECISIONS.md, "Forms").
// stays: low and high in place of `binary_search`: `reach_of` promises how many names are read.
// stays: names and counts lent beside one another: `reach_of` is over both, and no manifest is copied.
pub fn reaches(names: &[[u64; NAMES]], counts: &[usize], object: u64) -> Reach
    requires { Searchable names.now counts.now }
    ensures { result ≡ reach_of (lists_in names.now counts.now) object }
{
    let mut found = false;
    let mut reads = [0; MANIFESTS];
    'all: for (i, count) in counts.iter().enumerate() {
        let mut low = 0;
        let mut high = *count;
        while low < high {
            let middle = low + (high - low) / 2;
            let name = names[i][middle];
            reads[i] += 1;
            if name == object {
                found = true;
                break 'all;
            }
            if name < object {
                low = middle + 1;
            } else {
                high = middle;
            }
        }
    }
    Reach { found, reads }
}

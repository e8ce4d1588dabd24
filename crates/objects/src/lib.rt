// The stored objects of a ledger in their places, and the words whose bits say which are taken.
#![tactic(auto)]

mod occupancy;

ghost use Rattle.std.specs.Prelude.{◌≡◌, true, not, cond, map, ◌≤◌, ◌<◌, leb, length, drop, replicate, is_some, ⊤, MatchOption};
ghost use Rattle.rules.specs.Limits.{limits};
ghost use Rattle.rules.specs.Lists.{keep, any, all, has, distinct, maximum};
ghost use Rattle.rules.specs.State.{free, occupied};
ghost use Rattle.rules.specs.Step.{place, mark};
ghost use Rattle.objects.specs.Objects.{lay_places, is_laid, role_epoch, place_sound_by, numbers_at, named_at, currencies_at, among, currency_among, stored_in, currency_in, of_currency_in, numbers_in};
// For the collection, which frees places one after another, and the reader of an image, which fills them.
pub use occupancy::{clear_bit, set_bit};
use rules::{BITS, LARGEST_CURRENCY, Object, PLACES, Role, WORDS};
use std::array;

// A free place is all zero.
pub fn no_object() -> Object
    ensures { result ≡ free }
{
    Object {
        number: 0,
        role: Role::Writer,
        epoch: 0,
        currency: 0,
        named: false,
    }
}

#[derive(Clone, Copy)]
pub struct Objects {
    pub occupancy: [u64; WORDS],
    pub items: [Object; PLACES],
}

impl Objects {
    #[tactic(auto, unfolding(crate::specs::Occupancy::words_of, crate::specs::Occupancy::word))]
    pub fn none() -> Self
        ensures { result ≡ lay_places (replicate limits.places free) }
    {
        Objects {
            occupancy: [0; WORDS],
            items: [no_object(); PLACES],
        }
    }

    // The numbers in the places, 0 where one is free. Whoever looks many numbers up lends them, and copies no object.
    pub fn numbers(self) -> [u64; PLACES]
        ensures { result ≡ numbers_at self.items }
    {
        array::from_fn(|i| self.items[i].number)
    }

    // The numbers of the objects that are marked as named, 0 in the other places.
    pub fn named(self) -> [u64; PLACES]
        ensures { result ≡ named_at self.items }
    {
        array::from_fn(|i| named_number(&self.items[i]))
    }

    // The currencies in the places.
    pub fn currencies(self) -> [u16; PLACES]
        ensures { result ≡ currencies_at self.items }
    {
        array::from_fn(|i| self.items[i].currency)
    }

    // Whether an object of this number is stored.
    #[tactic(auto, using(crate::proofs::Places::stored_among))]
    pub fn is_stored(self, number: u64) -> bool
        ensures { result ≡ stored_in self.items number }
    {
        is_among(&self.numbers(), number)
    }

    // The currency of the stored object of this number, 0 where there is none.
    // stays: 0 for none, here and in `currency_among`: the definitions `currency_in` and `currency_of` of the rules have it.
    #[tactic(auto, using(crate::proofs::Places::currency_among_lem))]
    pub fn currency_of(self, number: u64) -> u16
        ensures { result ≡ currency_in self.items number }
    {
        currency_among(&self.numbers(), &self.currencies(), number)
    }

    // Whether every number of the list is stored.
    pub fn all_stored(self, list: &[u64]) -> bool
        ensures { not result ≡ any (λ n. not (stored_in self.items n)) list.now }
    {
        all_among(&self.numbers(), list)
    }

    // The highest number of the list that has this currency, 0 where there is none.
    // stays: 0 for none, which is no object's number: the definition `maximum` has it.
    #[tactic(auto, unfolding(rules::specs::Lists::keep, rules::specs::Lists::maximum))]
    pub fn highest(self, currency: u16, list: &[u64]) -> u64
        ensures { result ≡ maximum (of_currency_in self.items currency list.now) }
    {
        let numbers = self.numbers();
        let currencies = self.currencies();
        let mut best = 0;
        for name in list {
            if currency_among(&numbers, &currencies, *name) == currency && best < *name {
                best = *name;
            }
        }
        best
    }

    // Whether the occupancy words are those of the places, of any value.
    pub fn is_laid(self) -> bool
        ensures { result ≡ is_laid self }
    {
        let numbers = self.numbers();
        let (places, _) = numbers.as_chunks::<BITS>();
        self.occupancy
            .iter()
            .zip(places)
            .all(|(word, places)| *word == occupancy::word_of(places))
    }

    // Whether each place is free and all zero, or holds an object that is sound beside these epochs.
    pub fn places_sound(self, writer: u64, compactor: u64) -> bool
        ensures { result ≡ all (place_sound_by writer compactor) self.items }
    {
        self.items
            .iter()
            .all(|object| place_sound(*object, writer, compactor))
    }

    // Whether no two stored objects have one number. One that is above all before it is new; any other is looked for among them.
    pub fn is_distinct(self) -> bool
        ensures { result ≡ distinct (numbers_in self.items) }
    {
        let numbers = self.numbers();
        let mut highest = 0;
        for (i, number) in numbers.iter().enumerate() {
            if highest < *number {
                highest = *number;
            } else if is_among(&numbers[..i], *number) {
                return false;
            }
        }
        true
    }

    // Whether every place is taken: count of ones tells a full store.
    pub fn is_full(self) -> bool
        requires { is_laid self ≡ true }
        ensures { result ≡ leb limits.places (length (keep occupied self.items)) }
    {
        occupancy::count_taken(&self.occupancy) == PLACES
    }

    // The object goes to the lowest free place.
    pub fn put(mut self, object: Object) -> Self
        requires { (is_laid self ≡ true) × (occupied object ≡ true) × (length (keep occupied self.items) < limits.places) }
        ensures { result ≡ lay_places (place object self.items) }
    {
        let at = occupancy::lowest_free(&self.occupancy);
        occupancy::set_bit(&mut self.occupancy, at);
        self.items[at] = object;
        self
    }

    // The objects that the list names are marked as named.
    pub fn mark(mut self, list: &[u64]) -> Self
        requires { is_laid self ≡ true }
        ensures { result ≡ lay_places (map (mark list.now) self.items) }
    {
        for object in &mut self.items {
            object.named = object.named || contains(list, object.number);
        }
        self
    }
}

// The number of an object that is marked as named, 0 of another.
fn named_number(object: &Object) -> u64
    ensures { result ≡ cond object.now.named object.now.number 0 }
{
    if object.named { object.number } else { 0 }
}

// Whether the number stands in the list.
pub fn contains(list: &[u64], number: u64) -> bool
    ensures { result ≡ has number list.now }
{
    // stays: tried, and slower: a million searches of 256 places took 0.15 s by the slice's `contains`, 0.11 s so.
    list.iter().any(|n| *n == number)
}

// Whether a place has this number, which is not that of a free one.
#[tactic(auto, unfolding(crate::specs::Objects::among))]
pub fn is_among(numbers: &[u64], number: u64) -> bool
    ensures { result ≡ among numbers.now number }
{
    number != 0 && contains(numbers, number)
}

// The first place from `from` on that has this number.
fn place_behind(numbers: &[u64], from: usize, number: u64) -> Option<usize>
    requires { from ≤ length numbers.now }
    ensures within { MatchOption result ⊤ (λ place. place < length numbers.now) }
    ensures found { is_some result ≡ has number (drop from numbers.now) }
{
    numbers[from..]
        .iter()
        .position(|n| *n == number)
        .map(|ahead| from + ahead)
}

// A place that has this number, which is not that of a free one: one from `from` on where there is one.
#[tactic(auto, using(crate::proofs::Places::among_behind), unfolding(crate::specs::Objects::among))]
fn place_from(numbers: &[u64], from: usize, number: u64) -> Option<usize>
    requires { from ≤ length numbers.now }
    ensures within { MatchOption result ⊤ (λ place. place < length numbers.now) }
    ensures found { is_some result ≡ among numbers.now number }
{
    if number == 0 {
        return None;
    }
    place_behind(numbers, from, number).or_else(|| place_behind(numbers, 0, number))
}

// Whether each number of the list is among these. A list rises, and so do most places' numbers: the next is looked for behind the
// last one's place first.
#[tactic(auto, unfolding(rules::specs::Lists::all))]
pub fn all_among(numbers: &[u64], list: &[u64]) -> bool
    ensures { result ≡ all (among numbers.now) list.now }
{
    let mut at = 0;
    for name in list {
        match place_from(numbers, at, *name) {
            Some(place) => at = place,
            None => return false,
        }
    }
    true
}

// The currency beside the first of these numbers that is this one; 0 where none is.
// stays: two slices beside one another: the definition `currency_among` is over both, and no object is copied.
#[tactic(auto, using(crate::proofs::Places::beside_none), unfolding(crate::specs::Objects::beside))]
pub fn currency_among(numbers: &[u64], currencies: &[u16], number: u64) -> u16
    requires { length numbers.now ≤ length currencies.now }
    ensures { result ≡ currency_among numbers.now currencies.now number }
{
    if number == 0 {
        return 0;
    }
    for (n, currency) in numbers.iter().zip(currencies) {
        if *n == number {
            return *currency;
        }
    }
    0
}

// A role's epoch of the writer's and the compactor's.
pub fn epoch_of(role: Role, writer: u64, compactor: u64) -> u64
    ensures { result ≡ role_epoch role writer compactor }
{
    match role {
        Role::Writer => writer,
        Role::Compactor => compactor,
    }
}

// A place is free and all zero, or its object is sound beside these epochs.
#[tactic(auto, unfolding(crate::specs::Objects::place_sound_by, rules::specs::Lists::conj, rules::specs::Sound::unused))]
fn place_sound(object: Object, writer: u64, compactor: u64) -> bool
    ensures { result ≡ place_sound_by writer compactor object }
{
    if object.number == 0 {
        return object == no_object();
    }
    object.epoch != 0
        && object.epoch <= epoch_of(object.role, writer, compactor)
        && object.currency <= LARGEST_CURRENCY
}

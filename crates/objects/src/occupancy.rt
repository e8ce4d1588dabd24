// The occupancy words: bit i of a word is that of its place i, and the places of a word stand behind those of the words before.
ghost use Rattle.std.specs.Prelude.{◌≡◌, true, false, map, ◌≤◌, ◌<◌, ◌*◌, length, set};
ghost use Rattle.rules.specs.Limits.{word_count, word_bits};
ghost use Rattle.rules.specs.Table.{nonzero};
ghost use Rattle.objects.specs.Occupancy.{word, flags, flags_of, used, lowest_free, with_flag};

use rules::BITS;

// The word of places with these numbers: a free one has 0.
pub(crate) fn word_of(numbers: &[u64]) -> u64
    requires { length numbers.now ≤ word_bits }
    ensures { result ≡ word (map nonzero numbers.now) }
{
    let mut word = 0;
    for number in numbers.iter().rev() {
        word = word * 2 + u64::from(*number != 0);
    }
    word
}

// The lowest free place of a word: trailing zeros of the inverted word.
#[tactic(auto, using(crate::proofs::Words::lowest_flags))]
fn lowest_in(bits: u64) -> usize
    ensures { result ≡ lowest_free (flags word_bits bits) }
{
    (!bits).trailing_zeros() as usize
}

// The lowest free place, counted across the words in order; the number of places where none is free.
// stays: their number for none, here and in `lowest_in`: the definition `lowest_free` has it, as trailing zeros do.
#[tactic(auto, using(crate::proofs::Words::lowest_found, crate::proofs::Words::lowest_full, crate::proofs::Words::lowest_none))]
pub(crate) fn lowest_free(words: &[u64]) -> usize
    requires { length words.now ≤ word_count }
    ensures { result ≡ lowest_free (flags_of word_bits words.now) }
{
    for (k, word) in words.iter().enumerate() {
        let free = lowest_in(*word);
        if free < BITS {
            return k * BITS + free;
        }
    }
    words.len() * BITS
}

// How many places of a word are taken.
#[tactic(auto, using(crate::proofs::Words::ones_flags))]
fn taken_in(bits: u64) -> u32
    ensures { result ≡ used (flags word_bits bits) }
{
    bits.count_ones()
}

// How many places are taken.
pub(crate) fn count_taken(words: &[u64]) -> usize
    requires { length words.now ≤ word_count }
    ensures { result ≡ used (flags_of word_bits words.now) }
{
    words.iter().map(|word| taken_in(*word) as usize).sum()
}

// The word with the bit of a place set.
fn with_bit(bits: u64, at: usize) -> u64
    requires { at < word_bits }
    ensures { result ≡ word (set (flags word_bits bits) at true) }
{
    bits | (1u64 << at)
}

// The word with the bit of a place cleared.
fn without_bit(bits: u64, at: usize) -> u64
    requires { at < word_bits }
    ensures { result ≡ word (set (flags word_bits bits) at false) }
{
    bits & !(1u64 << at)
}

// The bit of a place is set.
#[tactic(auto, unfolding(crate::specs::Occupancy::with_flag))]
pub fn set_bit(words: &mut [u64], at: usize)
    requires { at < length words.old * word_bits }
    ensures { words.new ≡ with_flag word_bits true at words.old }
{
    let k = at / BITS;
    words[k] = with_bit(words[k], at % BITS);
}

// The bit of a place is cleared.
#[tactic(auto, unfolding(crate::specs::Occupancy::with_flag))]
pub fn clear_bit(words: &mut [u64], at: usize)
    requires { at < length words.old * word_bits }
    ensures { words.new ≡ with_flag word_bits false at words.old }
{
    let k = at / BITS;
    words[k] = without_bit(words[k], at % BITS);
}

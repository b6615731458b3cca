//! Rows of bits, 64 to a word: each bit says whether the item at its place in a list isn't 0.

ghost use Rattle.std.specs.Prelude.{◌≡◌, ◌≢◌, ℕ, ◌/◌, ◌^◌, ◌<◌, List, length, slice_index};
ghost use Rattle.cn_rib.specs.Tally.{bit_of, IsAbove, IsFirst};

/// How many bits a word has.
pub const WORD: usize = 64;

// Sets the bit at a place.
pub fn set(words: &mut [u64], place: usize)
    requires { place / 64 < length words.old }
    ensures there { bit_of words.new place ≡ 1 }
    ensures others { (k : ℕ) → k ≢ place → bit_of words.new k ≡ bit_of words.old k }
    ensures elsewhere { (k : ℕ) → k ≢ place / 64
        → slice_index words.new k ≡ slice_index words.old k }
{
    words[place / WORD] |= 1 << (place % WORD);
}

// Clears the bit at a place.
pub fn clear(words: &mut [u64], place: usize)
    requires { place / 64 < length words.old }
    ensures there { bit_of words.new place ≡ 0 }
    ensures others { (k : ℕ) → k ≢ place → bit_of words.new k ≡ bit_of words.old k }
    ensures elsewhere { (k : ℕ) → k ≢ place / 64
        → slice_index words.new k ≡ slice_index words.old k }
{
    words[place / WORD] &= !(1 << (place % WORD));
}

// The place of the lowest bit that is set in a word.
pub fn lowest(words: &[u64], word: usize) -> usize
    requires held { slice_index words.now word ≢ 0 }
    requires few { word < 2 ^ 32 }
    // Below the first word that isn't 0 lies the first item that isn't 0.
    ensures { (xs : List ℕ) → IsAbove words.now xs → IsFirst words.now word → IsFirst xs result }
{
    WORD * word + words[word].trailing_zeros() as usize
}

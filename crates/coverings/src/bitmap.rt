//! A bitmap over valuations: bit l of word h stands for the valuation 64 h + l.
ghost use Rattle.std.specs.Prelude.{◌≡◌, ℕ, ◌-◌, ◌/◌, ◌^◌, ◌<◌, ◌≤◌, min, true, if◌then◌else◌, Decides, slice_index};
ghost use Rattle.coverings.specs.Bitmap.{apart, join_word, free_high, Marks, full_word, Full};

use crate::cube::{Cube, low_word};

/// The marks of the valuations of some variables, of which `high` stand above the low six.
#[derive(Clone, Copy)]
pub(crate) struct Bitmap {
    // No heap: the words for the largest number of variables.
    words: [u64; 1024],
    high: usize,
    ghost small: { high ≤ 10 },
}

/// Have two words no bit in common?
fn are_apart(a: u64, b: u64) -> bool
    ensures { result ≡ apart a b }
{
    a & b == 0
}

/// How many of n variables, at most 16, stand above the low six.
fn high_variables(n: usize) -> usize
    ensures { result ≡ min (n - 6) 10 }
{
    if n <= 6 {
        0
    } else if n <= 16 {
        n - 6
    } else {
        10
    }
}

/// How many words the variables above the low six have. It asks for the bound itself, as the next function and `mark_cube` do: they are no methods of
/// the bitmap, for `Bitmap::mark` lends them its words alone.
fn word_count(high: usize) -> usize
    requires { high ≤ 10 }
    ensures { result ≡ 2 ^ high }
{
    1 << high
}

/// The variables above the low six that a cube leaves free; `high` of them count.
fn free_high(high: usize, cube: Cube) -> usize
    requires { high ≤ 10 }
    ensures { result ≡ free_high high cube }
{
    let mask = (cube.mask / 64) as usize;
    let all = word_count(high) - 1;
    (all | mask) ^ mask
}

/// Are all bits of a word marked?
fn is_full_word(word: u64) -> bool
    ensures { result ≡ full_word word }
{
    word == u64::MAX
}

/// Marks the bits of a word, unless one of them is marked already.
fn mark_word(words: &mut [u64; 1024], h: usize, word: u64) -> bool
    requires { h < 1024 }
    ensures value { result ≡ apart (slice_index words.old h) word }
    ensures marks { words.new ≡ (if result then join_word words.old h word else words.old) }
{
    if are_apart(words[h], word) {
        words[h] |= word;
        true
    } else {
        false
    }
}

/// Marks the valuations of a cube, and stops at one that is marked already. The words are those of the cube's values with each subset
/// of its free variables, from the largest to the smallest.
fn mark_cube(words: &mut [u64; 1024], high: usize, cube: Cube) -> bool
    requires { high ≤ 10 }
    ensures { Marks high cube words.old result words.new }
{
    let word = low_word(cube);
    let fixed = (cube.values / 64) as usize;
    let free = free_high(high, cube);
    let mut rest = free;
    // The subsets of a set of bits, from the largest on, stand in no range.
    'subsets: loop {
        if !mark_word(words, fixed | rest, word) {
            return false;
        }
        if rest == 0 {
            return true;
        }
        rest = (rest - 1) & free;
    }
}

impl Bitmap {
    /// A bitmap over the valuations of so many variables, at most 16, with no marks.
    pub(crate) fn new(variables: usize) -> Bitmap
        ensures high { result.high ≡ min (variables - 6) 10 }
        ensures blank { (h : ℕ) → slice_index result.words h ≡ 0 }
    {
        Bitmap {
            words: [0; 1024],
            high: high_variables(variables),
        }
    }

    /// Marks the valuations of a cube, and says whether none of them was marked already.
    pub(crate) fn mark(&mut self, cube: Cube) -> bool
        ensures marks { Marks self.old.high cube self.old.words result self.new.words }
        ensures high { self.new.high ≡ self.old.high }
    {
        mark_cube(&mut self.words, self.high, cube)
    }

    /// Are all bits of all words marked that the variables above the low six have?
    pub(crate) fn is_full(&self) -> bool
        ensures { Decides result (Full self.now.words self.now.high) }
    {
        self.words[..word_count(self.high)]
            .iter()
            .all(|word| is_full_word(*word))
    }
}

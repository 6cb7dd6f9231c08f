//! Names: words of at most 15 bytes, each of one size, so that they can be keys of an index.
#![tactic(auto)]

ghost use Rattle.std.specs.Prelude.{◌≡◌, length, slice_get};
ghost use Rattle.names.specs.Words.{KeepsWords, is_environment, name_code, name_of, next_code, word_of};

use index::Key;

/// A word of at most 15 bytes. The bytes past its length are 0.
/// No heap: the bytes stand in an array with their count, so that a name is `Copy` and all names have one size.
#[derive(Clone, Copy, PartialEq, Eq)]
pub struct Name {
    pub bytes: [u8; 15],
    pub length: u8,
}

impl Name {
    /// The name of a word; a word of more than 15 bytes is cut to its first 15.
    pub fn new(word: &[u8]) -> Name
        ensures { result ≡ name_of word.now }
    {
        let length = word.len().min(15);
        let mut bytes = [0; 15];
        bytes[..length].copy_from_slice(&word[..length]);
        Name {
            bytes,
            length: length as u8,
        }
    }

    /// The word that this is the name of.
    pub fn word(&self) -> &[u8]
        ensures { result.now ≡ word_of self.now }
    {
        &self.bytes[..usize::from(self.length).min(15)]
    }

    /// The length of the word.
    pub fn len(&self) -> usize
        ensures { result ≡ length (word_of self.now) }
    {
        self.word().len()
    }

    /// The byte of the word at a place.
    pub fn byte(&self, i: usize) -> Option<u8>
        ensures { result ≡ slice_get (word_of self.now) i }
    {
        self.word().get(i).copied()
    }

    /// Does the word end in `_e`? It then names a variable of the environment.
    pub fn is_environment(&self) -> bool
        ensures { result ≡ is_environment (word_of self.now) }
    {
        self.word().ends_with(b"_e")
    }
}

/// The law that the name of a word of at most 15 bytes gives that word back.
pub fn names_keep_words()
    ensures { KeepsWords }
{}

/// The code after one more byte.
fn next_code(code: u32, byte: u8) -> u32
    ensures { result ≡ next_code code byte }
{
    ((u64::from(code) * 31 + u64::from(byte)) % 65521) as u32
}

/// Names are keys: the code is of the bytes alone.
impl Key for Name {
    ghost coded = { name_code };

    fn code(&self) -> u32 {
        self.bytes
            .iter()
            .fold(0, |code, byte| next_code(code, *byte))
    }

    fn same(&self, other: &Name) -> bool {
        self == other
    }
}

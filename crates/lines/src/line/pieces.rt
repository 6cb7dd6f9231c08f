//! Making a line from pieces, and reading it.
ghost use Rattle.std.specs.Prelude.{◌≡◌, ◌≤◌, [], ◌∷◌, ◌++◌, length, take, decimal};
ghost use Rattle.std.specs.List.{slice_get};
ghost use Rattle.lines.specs.Digits.{DigitsOf};

use super::Line;

impl Line {
    /// The empty line.
    pub fn new() -> Line
        ensures { result ≡ [] }
    {
        Line {
            bytes: [0; 64],
            len: 0,
        }
    }

    /// How many bytes the line shows.
    pub fn len(&self) -> usize
        ensures value { result ≡ length self.now }
        ensures bound { result ≤ 64 }
    {
        self.as_bytes().len()
    }

    /// The bytes that the line shows.
    pub fn as_bytes(&self) -> &[u8]
        ensures value { result.now ≡ self.now }
        ensures bound { length result.now ≤ 64 }
    {
        &self.bytes[..self.len]
    }

    /// The byte at a place of the line, or none past its end.
    pub fn byte(&self, place: usize) -> Option<u8>
        ensures { result ≡ slice_get self.now place }
    {
        self.as_bytes().get(place).copied()
    }

    /// Adds bytes at the end, as many as there is room for: a line has at most 64, and further ones are dropped.
    pub fn push_bytes(&mut self, bytes: &[u8])
        ensures { self.new ≡ take 64 (self.old ++ bytes.now) }
    {
        let count = bytes.len().min(64 - self.len);
        let end = self.len + count;
        self.bytes[self.len..end].copy_from_slice(&bytes[..count]);
        self.len = end;
    }

    /// Adds one byte at the end; a line that has 64 stays as it is.
    pub fn push(&mut self, byte: u8)
        ensures { self.new ≡ take 64 (self.old ++ byte ∷ []) }
    {
        self.push_bytes(&[byte]);
    }

    /// Adds a number at the end, in decimal, as `{}` writes it.
    pub fn push_number(&mut self, number: usize)
        ensures line { self.new ≡ take 64 (self.old ++ decimal number) }
        ensures digits { DigitsOf number (decimal number) }
    {
        if number >= 10 {
            self.push_number(number / 10);
        }
        self.push(b'0' + (number % 10) as u8);
    }

    /// The line with bytes at its end, as `push_bytes` adds them.
    pub fn with_bytes(mut self, bytes: &[u8]) -> Line
        ensures { result ≡ take 64 (self ++ bytes.now) }
    {
        self.push_bytes(bytes);
        self
    }

    /// The line with a number at its end, as `push_number` adds it.
    pub fn with_number(mut self, number: usize) -> Line
        ensures { result ≡ take 64 (self ++ decimal number) }
    {
        self.push_number(number);
        self
    }
}

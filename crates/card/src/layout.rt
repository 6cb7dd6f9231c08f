//! How the entries of a card stand in bytes.
ghost use Rattle.std.specs.Prelude.{◌≡◌, ℕ, ◌+◌, ◌/◌, ◌%◌, ◌^◌, ◌<◌, ◌≤◌, List, length, refl};
ghost use Rattle.std.proofs.Common.{rules};
ghost use Rattle.card.specs.Layout.{byte_at, word_at, formula_at, node_at, move_at, formula_bytes, node_bytes, move_bytes, word_bytes};
ghost use Rattle.card.specs.Written.{put_at};

use crate::entry::Entry;
use records::{FormulaRecord, MoveRecord, NodeRecord};

/// An entry as a card file holds it.
pub(crate) trait Stored: Entry {
    /// How many bytes it has.
    ghost SIZE: { ℕ };

    /// Its bytes, and the entry that stands in bytes from a place on.
    ghost bytes_of: { Self → List ℕ };

    ghost read_from: { List ℕ → ℕ → Self };

    const SIZE: usize;

    /// Reads the entry that stands at a place; bytes past the end count as 0.
    fn read(bytes: &[u8], at: usize) -> Self
        requires { at < 2 ^ 32 }
        ensures { result ≡ read_from bytes.now at };

    /// Writes the entry into the output from a place on.
    fn put(self, output: &mut [u8], at: usize)
        requires { at + SIZE ≤ length output.old }
        ensures { output.new ≡ put_at output.old at (bytes_of self) };

    ghost sized: { (x : Self) → length (bytes_of x) ≡ SIZE };

    ghost small: { SIZE ≤ 10 };
}

/// Copies the bytes into the output from a place on.
pub(crate) fn put(output: &mut [u8], at: usize, bytes: &[u8])
    requires { at + length bytes.now ≤ length output.old }
    ensures { output.new ≡ put_at output.old at bytes.now }
{
    output[at..at + bytes.len()].copy_from_slice(bytes);
}

/// The byte at a place, 0 past the end.
pub(crate) fn byte_at(bytes: &[u8], at: usize) -> u8
    ensures { result ≡ byte_at bytes.now at }
{
    bytes.get(at).copied().unwrap_or(0)
}

/// The number of two bytes, the low one first.
pub(crate) fn word_at(bytes: &[u8], at: usize) -> u16
    requires { at + 1 < 2 ^ 64 }
    ensures { result ≡ word_at bytes.now at }
{
    byte_at(bytes, at) as u16 + byte_at(bytes, at + 1) as u16 * 256
}

/// The low byte of a number of two bytes, and the high one.
pub(crate) fn low(word: u16) -> u8
    ensures { result ≡ word % 256 }
{
    (word % 256) as u8
}

pub(crate) fn high(word: u16) -> u8
    ensures { result ≡ word / 256 }
{
    (word / 256) as u8
}

/// The bytes of a formula. (Each kind of entry has its own fields, so each has a table of its own.)
fn formula_to_bytes(record: FormulaRecord) -> [u8; 10]
    ensures { result ≡ formula_bytes «record» }
{
    [
        record.kind,
        record.variable,
        low(record.a),
        high(record.a),
        low(record.b),
        high(record.b),
        low(record.n),
        high(record.n),
        low(record.m),
        high(record.m),
    ]
}

impl Stored for FormulaRecord {
    ghost SIZE = { 10 };

    ghost bytes_of = { formula_bytes };

    ghost read_from = { formula_at };

    const SIZE: usize = 10;

    fn read(bytes: &[u8], at: usize) -> FormulaRecord {
        FormulaRecord {
            kind: byte_at(bytes, at),
            variable: byte_at(bytes, at + 1),
            a: word_at(bytes, at + 2),
            b: word_at(bytes, at + 4),
            n: word_at(bytes, at + 6),
            m: word_at(bytes, at + 8),
        }
    }

    fn put(self, output: &mut [u8], at: usize) {
        put(output, at, &formula_to_bytes(self));
    }

    ghost sized = { λ x. refl };

    ghost small = { Prim.search rules };
}

impl Stored for u16 {
    ghost SIZE = { 2 };

    ghost bytes_of = { word_bytes };

    ghost read_from = { word_at };

    const SIZE: usize = 2;

    fn read(bytes: &[u8], at: usize) -> u16 {
        word_at(bytes, at)
    }

    fn put(self, output: &mut [u8], at: usize) {
        put(output, at, &[low(self), high(self)]);
    }

    ghost sized = { λ x. refl };

    ghost small = { Prim.search rules };
}

/// The bytes of a node.
fn node_to_bytes(record: NodeRecord) -> [u8; 8]
    ensures { result ≡ node_bytes «record» }
{
    [
        low(record.first_label),
        high(record.first_label),
        low(record.label_count),
        high(record.label_count),
        low(record.first_move),
        high(record.first_move),
        low(record.move_count),
        high(record.move_count),
    ]
}

impl Stored for NodeRecord {
    ghost SIZE = { 8 };

    ghost bytes_of = { node_bytes };

    ghost read_from = { node_at };

    const SIZE: usize = 8;

    fn read(bytes: &[u8], at: usize) -> NodeRecord {
        NodeRecord {
            first_label: word_at(bytes, at),
            label_count: word_at(bytes, at + 2),
            first_move: word_at(bytes, at + 4),
            move_count: word_at(bytes, at + 6),
        }
    }

    fn put(self, output: &mut [u8], at: usize) {
        put(output, at, &node_to_bytes(self));
    }

    ghost sized = { λ x. refl };

    ghost small = { Prim.search rules };
}

/// The bytes of a move.
fn move_to_bytes(record: MoveRecord) -> [u8; 10]
    ensures { result ≡ move_bytes «record» }
{
    [
        low(record.env_mask),
        high(record.env_mask),
        low(record.env_values),
        high(record.env_values),
        low(record.sys_mask),
        high(record.sys_mask),
        low(record.sys_values),
        high(record.sys_values),
        low(record.target),
        high(record.target),
    ]
}

impl Stored for MoveRecord {
    ghost SIZE = { 10 };

    ghost bytes_of = { move_bytes };

    ghost read_from = { move_at };

    const SIZE: usize = 10;

    fn read(bytes: &[u8], at: usize) -> MoveRecord {
        MoveRecord {
            env_mask: word_at(bytes, at),
            env_values: word_at(bytes, at + 2),
            sys_mask: word_at(bytes, at + 4),
            sys_values: word_at(bytes, at + 6),
            target: word_at(bytes, at + 8),
        }
    }

    fn put(self, output: &mut [u8], at: usize) {
        put(output, at, &move_to_bytes(self));
    }

    ghost sized = { λ x. refl };

    ghost small = { Prim.search rules };
}

//! The line itself.
use std::marker::Model;

mod pieces;

/// A line of at most 64 bytes. Contracts see it as the list of the bytes that it shows. It is an array with a length, and not a `Vec`,
/// since a line is `Copy` and nothing here allocates.
#[derive(Clone, Copy)]
pub struct Line {
    bytes: [u8; 64],
    len: usize,
}

/// What stands past the bytes that are shown is 0, so that these alone give the fields back, as a `Copy` type with a model has to.
impl Model for Line {
    ghost use Rattle.std.specs.Prelude.{ℕ, List, take};

    ghost Value = { List ℕ };

    ghost use Rattle.lines.specs.Fields.{Kept, line_back, line_of};

    ghost view = { λ l. take l.len l.bytes };

    ghost invariant = { Kept };

    ghost inverse = { line_of };

    ghost inverse_ok = { line_back };
}

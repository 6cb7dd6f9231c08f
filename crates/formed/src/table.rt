//! The formulas of a card as a table. Its calls stand in the module below, since their contracts cite what the table holds.
ghost use Rattle.std.specs.Prelude.{◌≤◌};

use records::FormulaRecord;

pub mod copy;

/// The first `count` records of the table; what stands past them is never seen.
#[derive(Clone, Copy)]
pub struct Records {
    // No heap: an array with its count, which is `Copy`.
    table: [FormulaRecord; 1024],
    count: usize,
    ghost room: { count ≤ 1024 },
}

//! The list of a specification's formulas, as it is handed on.
ghost use Rattle.std.specs.Prelude.{◌≡◌, ◌<◌, ◌≤◌, true, length, take};
ghost use Rattle.formulas.specs.Trees.{ordered as in_order};

use formulas::Formula;

/// The formulas of a specification with all their parts: entry 0 is False, entry 1 is True, parts come before wholes.
/// `initial` and `safety` are the numbers of its two formulas. The list is an array with a count, and not a `Vec`, since it is `Copy` and
/// nothing here allocates.
#[derive(Clone, Copy)]
pub struct Formulas {
    pub table: [Formula; 256],
    pub count: usize,
    pub initial: u16,
    pub safety: u16,
    ghost held: { (count ≤ 256) × (count ≤ length table) },
    ghost ordered: { in_order (take count table) ≡ true },
    ghost rooted: { (initial < count) × (safety < count) },
}

/// Why there is no such list.
#[derive(Clone, Copy, PartialEq, Eq)]
pub enum Refusal {
    /// fewer than 2,048 slots
    Short,
    /// more than 256 formulas
    TooMany,
}

//! Readings: which literals count as true.
ghost use Rattle.std.specs.Prelude.{◌≡◌, ℕ, Bool};
ghost use Rattle.temporal.specs.Game.{value};
ghost use Rattle.tableau.specs.Moves.{cautious, generous};
ghost use Rattle.records.specs.Raw.{move_of};

use records::{MoveRecord, bit};

/// A reading is the set of literals that it counts as true: `positive` is a variable, otherwise its negation. The definitions take a literal apart
/// into these two as well.
pub trait Reading {
    ghost literals: { Self → Bool → ℕ → Bool };

    fn counts(&self, positive: bool, variable: u8) -> bool
        ensures { result ≡ literals self.now positive variable };
}

/// Counts a literal as true only if the move fixes it so.
#[derive(Clone, Copy)]
pub struct Cautious(pub MoveRecord);

/// Counts a literal as false only if the move fixes the opposite.
#[derive(Clone, Copy)]
pub struct Generous(pub MoveRecord);

/// The bit of a variable: environment variables are 0 to 15, system variables follow from 16 on.
fn value_of(env: u16, sys: u16, variable: u8) -> bool
    ensures { result ≡ value env sys variable }
{
    if variable < 16 {
        bit(env, variable)
    } else {
        bit(sys, variable - 16)
    }
}

/// Whether the move fixes the variable to this value.
fn fixes(m: &MoveRecord, positive: bool, variable: u8) -> bool
    ensures { result ≡ cautious (move_of m.now) positive variable }
{
    value_of(m.env_mask, m.sys_mask, variable)
        && value_of(m.env_values, m.sys_values, variable) == positive
}

impl Reading for Cautious {
    ghost literals = { λ x. cautious (move_of x.0) };

    fn counts(&self, positive: bool, variable: u8) -> bool {
        fixes(&self.0, positive, variable)
    }
}

impl Reading for Generous {
    ghost literals = { λ x. generous (move_of x.0) };

    fn counts(&self, positive: bool, variable: u8) -> bool {
        !fixes(&self.0, !positive, variable)
    }
}

//! The entries of a card as plain records, as a source answers them and a file holds them.
#![tactic(auto)]

mod kind;

ghost use Rattle.std.specs.Prelude.{◌≡◌};
ghost use Rattle.temporal.specs.Game.{bit};

pub use kind::{UnknownKind, records_name_their_formulas};

/// A formula: its kind (0 false, 1 true, 2 variable, 3 negated variable, 4 and, 5 or, 6 X, 7 G, 8 F), its variable, the numbers of
/// its parts, and its bounds. It may hold any numbers, as a file does; `Formula::try_from` tells the kinds apart.
#[derive(Clone, Copy, PartialEq, Eq, Debug)]
pub struct FormulaRecord {
    pub kind: u8,
    pub variable: u8,
    pub a: u16,
    pub b: u16,
    pub n: u16,
    pub m: u16,
}

/// A node: where its label entries and its moves begin in their lists, and how many there are.
#[derive(Clone, Copy, PartialEq, Eq, Debug)]
pub struct NodeRecord {
    pub first_label: u16,
    pub label_count: u16,
    pub first_move: u16,
    pub move_count: u16,
}

/// A move: bit i of a mask is set if the move fixes variable i of that kind, to bit i of the values. The target is a node, or the end,
/// written 65,535 as in a file.
#[derive(Clone, Copy, PartialEq, Eq, Debug)]
pub struct MoveRecord {
    pub env_mask: u16,
    pub env_values: u16,
    pub sys_mask: u16,
    pub sys_values: u16,
    pub target: u16,
}

/// Bit i of a mask or of values; from 16 on all are 0.
pub fn bit(bits: u16, i: u8) -> bool
    ensures { result ≡ bit bits i }
{
    i < 16 && (bits >> i) % 2 == 1
}

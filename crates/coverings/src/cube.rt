//! Cubes: sets of valuations of variables. Bit i of a valuation is the value of variable i.
ghost use Rattle.std.specs.Prelude.{◌≡◌};
ghost use Rattle.records.specs.Raw.{move_of};
ghost use Rattle.coverings.specs.Cubes.{cube_of, column, literal_word, literal_of, low_word};

use records::{MoveRecord, bit};

/// The valuations that agree with the values on the variables of the mask.
#[derive(Clone, Copy)]
pub(crate) struct Cube {
    pub(crate) mask: u16,
    pub(crate) values: u16,
}

/// Whose variables.
#[derive(Clone, Copy)]
pub(crate) enum Side {
    Environment,
    System,
}

/// What a move fixes of one side's variables.
pub(crate) fn cube_of(side: Side, x: MoveRecord) -> Cube
    ensures { result ≡ cube_of side (move_of x) }
{
    match side {
        Side::Environment => Cube {
            mask: x.env_mask,
            values: x.env_values,
        },
        Side::System => Cube {
            mask: x.sys_mask,
            values: x.sys_values,
        },
    }
}

/// The word whose bit l is the value of variable i, one of the low six, in the valuation l.
fn column_of(i: u8) -> u64
    ensures { result ≡ column i }
{
    match i {
        0 => 0xaaaa_aaaa_aaaa_aaaa,
        1 => 0xcccc_cccc_cccc_cccc,
        2 => 0xf0f0_f0f0_f0f0_f0f0,
        3 => 0xff00_ff00_ff00_ff00,
        4 => 0xffff_0000_ffff_0000,
        _ => 0xffff_ffff_0000_0000,
    }
}

// Both bits come from the cube's two masks as they are; an `Option` would be made for this call alone.
/// The word of the valuations of the low six variables in which variable i has the value, or of all if it is not fixed.
fn literal_word(i: u8, fixed: bool, value: bool) -> u64
    ensures { result ≡ literal_word i fixed value }
{
    if !fixed {
        u64::MAX
    } else if value {
        column_of(i)
    } else {
        u64::MAX - column_of(i)
    }
}

/// The same for what a cube fixes of variable i.
fn literal_of(cube: Cube, i: u8) -> u64
    ensures { result ≡ literal_of cube i }
{
    literal_word(i, bit(cube.mask, i), bit(cube.values, i))
}

/// The word of the valuations of the low six variables that agree with a cube.
pub(crate) fn low_word(cube: Cube) -> u64
    ensures { result ≡ low_word cube }
{
    literal_of(cube, 0)
        & literal_of(cube, 1)
        & literal_of(cube, 2)
        & (literal_of(cube, 3) & literal_of(cube, 4) & literal_of(cube, 5))
}

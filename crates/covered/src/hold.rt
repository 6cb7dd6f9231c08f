//! What a set of a card's formulas holds: its members, and both parts of each conjunction held.
ghost use Rattle.std.specs.Prelude.{◌≡◌};
ghost use Rattle.covered.specs.Marks.{spread, held_marks};
ghost use Rattle.covered.specs.Meaning.{MarksHeld};

use crate::marks::{is_marked, set_mark};
use formulas::Formula;
use records::FormulaRecord;

// A number and the marks that it is looked up in are no one value: the marks are lent to each step in turn.
/// Marks both parts of formula i, the record f, if it is marked and a conjunction.
fn hold_parts(i: usize, f: FormulaRecord, marks: &mut [bool; 1024])
    ensures { marks.new ≡ spread i f marks.old }
{
    if is_marked(marks, i)
        && let Ok(Formula::And(a, b)) = Formula::try_from(f)
    {
        set_mark(marks, a as usize);
        set_mark(marks, b as usize);
    }
}

/// From the marks of a set's members to those of everything that the set holds, in one pass: parts stand before wholes.
pub fn hold(records: &[FormulaRecord], marks: &mut [bool; 1024])
    ensures value { marks.new ≡ held_marks records.now marks.old }
    ensures law { MarksHeld records.now marks.old marks.new }
{
    for (i, record) in records.iter().enumerate().rev() {
        hold_parts(i, *record, marks);
    }
}

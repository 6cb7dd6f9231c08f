//! What a set of a card's formulas covers.
ghost use Rattle.std.specs.Prelude.{◌≡◌};
ghost use Rattle.covered.specs.Marks.{range_from, ranges_marks, joined_from, held_marks, covered_marks};
ghost use Rattle.covered.specs.Meaning.{MarksCovered, MarksCoveredBy};

use crate::formula::{covers_range, follows_from_parts, is_range};
use crate::hold::hold;
use crate::marks::{is_marked, set_mark};
use records::FormulaRecord;

/// Marks each formula that a held G or F covers by its range.
fn cover_range(records: &[FormulaRecord], held: FormulaRecord, covered: &mut [bool; 1024])
    ensures { covered.new ≡ range_from held records.now 0 covered.old }
{
    for (i, f) in records.iter().enumerate() {
        if covers_range(held, *f) {
            set_mark(covered, i);
        }
    }
}

/// Marks what the held Gs and Fs cover by their ranges: one pass for each of them.
fn cover_ranges(records: &[FormulaRecord], held: &[bool; 1024], covered: &mut [bool; 1024])
    ensures { covered.new ≡ ranges_marks records.now held.now covered.old }
{
    for (i, f) in records.iter().enumerate() {
        if is_marked(held, i) && is_range(*f) {
            cover_range(records, *f, covered);
        }
    }
}

/// Marks what is covered through its parts, or all if everything is covered: parts stand before wholes.
fn cover_wholes(records: &[FormulaRecord], everything: bool, covered: &mut [bool; 1024])
    ensures { covered.new ≡ joined_from everything records.now 0 covered.old }
{
    for (i, f) in records.iter().enumerate() {
        if follows_from_parts(everything, *f, covered) {
            set_mark(covered, i);
        }
    }
}

/// From the marks of what a set holds to those of everything that it covers.
pub fn covered(records: &[FormulaRecord], held: &[bool; 1024]) -> [bool; 1024]
    ensures value { result ≡ covered_marks records.now held.now }
    ensures law { MarksCovered records.now held.now result }
{
    let mut covered = *held;
    cover_ranges(records, held, &mut covered);
    cover_wholes(records, is_marked(held, 0), &mut covered);
    covered
}

/// From the marks of a set's members to those of everything that the set covers.
pub fn covered_by(records: &[FormulaRecord], members: &[bool; 1024]) -> [bool; 1024]
    ensures value { result ≡ covered_marks records.now (held_marks records.now members.now) }
    ensures law { MarksCoveredBy records.now members.now result }
{
    let mut held = *members;
    hold(records, &mut held);
    covered(records, &held)
}

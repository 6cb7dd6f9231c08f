//! Tests on single formulas of a card.
ghost use Rattle.std.specs.Prelude.{◌≡◌};
ghost use Rattle.covered.specs.Marks.{is_range, includes, covers_range, parts_cover, follows};

use crate::marks::is_marked;
use formulas::Formula;
use records::FormulaRecord;

/// Is it a G or an F?
pub(crate) fn is_range(f: FormulaRecord) -> bool
    ensures { result ≡ is_range f }
{
    matches!(
        Formula::try_from(f),
        Ok(Formula::Always(..) | Formula::Eventually(..))
    )
}

/// Does the range of one formula include that of the other?
fn range_includes(outer: FormulaRecord, inner: FormulaRecord) -> bool
    ensures { result ≡ includes outer inner }
{
    outer.n <= inner.n && inner.m <= outer.m
}

/// Does a held G or F cover the other formula: the same operator and body, and a G over a wider range or an F over a narrower one?
pub(crate) fn covers_range(held: FormulaRecord, other: FormulaRecord) -> bool
    ensures { result ≡ covers_range held other }
{
    // Of each pair the numbers of the kinds are compared, and only a pair of one kind and body is named.
    if held.kind != other.kind || held.a != other.a {
        return false;
    }
    match Formula::try_from(held) {
        Ok(Formula::Always(..)) => range_includes(held, other),
        Ok(Formula::Eventually(..)) => range_includes(other, held),
        _ => false,
    }
}

/// Is a formula covered through its parts? True always is; a conjunction if both parts are, a disjunction if one is.
fn parts_cover(f: FormulaRecord, covered: &[bool; 1024]) -> bool
    ensures { result ≡ parts_cover f covered.now }
{
    match Formula::try_from(f) {
        Ok(Formula::True) => true,
        Ok(Formula::And(a, b)) => is_marked(covered, a as usize) && is_marked(covered, b as usize),
        Ok(Formula::Or(a, b)) => is_marked(covered, a as usize) || is_marked(covered, b as usize),
        _ => false,
    }
}

/// The same, where everything may be covered.
pub(crate) fn follows_from_parts(everything: bool, f: FormulaRecord, covered: &[bool; 1024]) -> bool
    ensures { result ≡ follows everything f covered.now }
{
    everything || parts_cover(f, covered)
}

//! The limits of a card's counts and kind.
ghost use Rattle.std.specs.Prelude.{◌≡◌};
ghost use Rattle.card.specs.Limits.{formulas_right, labels_right, nodes_right, moves_right, kind_right, wrong_count};
ghost use Rattle.card.specs.Trailer.{trailer_fault, refused_field, required};

use crate::source::CardSource;
use faults::card::{CardFault, CardList, CardReason};

// The limits, one test each, by the name of its definition: one test of any range would be told the two limits at each call.

/// Has a card a possible number of formulas?
pub(crate) fn formulas_right(count: usize) -> bool
    ensures { result ≡ formulas_right count }
{
    (2..=1_024).contains(&count)
}

pub(crate) fn labels_right(count: usize) -> bool
    ensures { result ≡ labels_right count }
{
    count <= 4_096
}

pub(crate) fn nodes_right(count: usize) -> bool
    ensures { result ≡ nodes_right count }
{
    (1..=1_024).contains(&count)
}

pub(crate) fn moves_right(count: usize) -> bool
    ensures { result ≡ moves_right count }
{
    (1..=2_048).contains(&count)
}

pub(crate) fn kind_right(kind: u16) -> bool
    ensures { result ≡ kind_right kind }
{
    (1..=2).contains(&kind)
}

/// The first count of a card that is outside its limits, or else the kind, by the number of its field in a file's trailer.
pub fn wrong_count<S: CardSource>(source: &S) -> Option<usize>
    ensures { result ≡ wrong_count (S.card source.now) }
{
    if !formulas_right(source.formula_count()) {
        return Some(1);
    }
    if !labels_right(source.label_count()) {
        return Some(3);
    }
    if !nodes_right(source.node_count()) {
        return Some(5);
    }
    if !moves_right(source.move_count()) {
        return Some(7);
    }
    if !kind_right(source.kind()) {
        return Some(8);
    }
    None
}

/// Refuses a card for the first count that is outside its limits, or else for the kind, by the number of its field in a file's trailer.
pub fn check_counts<S: CardSource>(source: &S) -> Result<(), CardFault>
    ensures { result ≡ refused_field (wrong_count (S.card source.now)) }
{
    match wrong_count(source) {
        None => Ok(()),
        Some(field) => Err(trailer_fault(field)),
    }
}

/// Refuses a field of the trailer unless its test passed.
pub(crate) fn require(right: bool, field: usize) -> Result<(), CardFault>
    ensures { result ≡ required right field }
{
    if right {
        Ok(())
    } else {
        Err(trailer_fault(field))
    }
}

/// The refusal for a field of the trailer.
pub fn trailer_fault(field: usize) -> CardFault
    ensures { result ≡ trailer_fault field }
{
    CardFault::Refused {
        reason: CardReason::Count,
        list: CardList::Trailer,
        place: field,
    }
}

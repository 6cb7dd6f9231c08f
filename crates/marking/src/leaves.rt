//! Tests on single entries, and the faults by their places.
ghost use Rattle.std.specs.Prelude.{◌≡◌};
ghost use Rattle.faults.specs.declared.card.CardFault.TheVariants.{Refused};
ghost use Rattle.tableau.specs.Conditions.{keeps_target};
ghost use Rattle.card.specs.Named.{kind_named, target_named};
ghost use Rattle.marking.specs.Tests.{label_number_kept};

use card::entries::{Kind, Target};
use faults::card::{CardFault, CardList, CardReason};

/// An open label has no false, which is formula 0.
pub(crate) fn label_kept(kind: Kind, formula: u16) -> bool
    ensures { result ≡ label_number_kept (kind_named kind) formula }
{
    match kind {
        Kind::Open => formula != 0,
        Kind::Closed => true,
    }
}

/// Is the target of a move of node n kept, in a card of so many nodes? Open: a node. Closed: the end, or a node above n.
pub(crate) fn target_kept(kind: Kind, nodes: usize, n: usize, target: Target) -> bool
    ensures { result ≡ keeps_target (kind_named kind) nodes n (target_named target) }
{
    match (kind, target) {
        (Kind::Open, Target::End) => false,
        (Kind::Open, Target::Node(k)) => (k as usize) < nodes,
        (Kind::Closed, Target::End) => true,
        (Kind::Closed, Target::Node(k)) => n < k as usize && (k as usize) < nodes,
    }
}

/// The refusal of a condition, by the entry at which it fails.
pub(crate) fn refused(reason: CardReason, list: CardList, place: usize) -> CardFault
    ensures { result ≡ Refused reason list place }
{
    CardFault::Refused {
        reason,
        list,
        place,
    }
}

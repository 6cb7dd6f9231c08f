//! The tests of the root and of a step.
ghost use Rattle.std.specs.Prelude.{◌≡◌};
ghost use Rattle.tableau.specs.Moves.{end, node};
ghost use Rattle.tableau.specs.Card.{opened, closed, kind_of};
ghost use Rattle.tableau.specs.Conditions.{reading_of};
ghost use Rattle.records.specs.Raw.{RawCard, model, move_of};
ghost use Rattle.rested.specs.Listing.{Ready};
ghost use Rattle.rested.specs.Rests.{AllRested};
ghost use Rattle.card.specs.Named.{kind_named, target_named};
ghost use Rattle.steps.specs.Steps.{TellsRoot, TellsStep};

use crate::sets::{all_covered, label_marks, only};
use card::entries::{Kind, Target, kind_of, node_of};
use card::source::CardSource;
use covered::cover::covered_by;
use covered::hold::hold;
use covered::marks::is_marked;
use index::Slot;
use records::{FormulaRecord, MoveRecord};
use rested::key::FormulaKey;
use rested::reading::{Cautious, Generous};
use rested::rest::rests;

/// Is the root kept? Open: the label of node 0 covers the initial formula. Closed: the initial formula alone covers all of the label.
pub fn root_kept<S: CardSource>(source: &S, records: &[FormulaRecord], initial: u16) -> bool
    ensures { TellsRoot (S.card source.now) records.now initial result }
{
    let label = label_marks(source, node_of(source, 0));
    match kind_of(source) {
        Kind::Open => is_marked(&covered_by(records, &label), initial as usize),
        Kind::Closed => all_covered(records.len(), &label, &covered_by(records, &only(initial))),
    }
}

/// Open: the label of node k covers the rests.
fn label_covers<S: CardSource>(
    source: &S,
    records: &[FormulaRecord],
    rests: &[bool; 1024],
    k: u16,
) -> bool
    ensures { TellsStep opened (S.card source.now) records.now rests.now (node k) result }
{
    let label = label_marks(source, node_of(source, k as usize));
    all_covered(records.len(), rests, &covered_by(records, &label))
}

/// Closed: the rests cover the label of node k.
fn covers_label<S: CardSource>(
    source: &S,
    records: &[FormulaRecord],
    rests: &[bool; 1024],
    k: u16,
) -> bool
    ensures { TellsStep closed (S.card source.now) records.now rests.now (node k) result }
{
    let label = label_marks(source, node_of(source, k as usize));
    all_covered(records.len(), &label, &covered_by(records, rests))
}

// Records and the marks of rests go together here and are no one value: the records are the card's, the rests one move's.
/// Closed, at the end: the rests hold false.
fn holds_false(records: &[FormulaRecord], rests: &[bool; 1024]) -> bool
    ensures { (c : RawCard) → TellsStep closed c records.now rests.now end result }
{
    let mut held = *rests;
    hold(records, &mut held);
    is_marked(&held, 0)
}

/// Is the step to a target kept, where the marks are those of the rests? An open card has no step to the end.
pub fn step_kept<S: CardSource>(
    source: &S,
    kind: Kind,
    records: &[FormulaRecord],
    rests: &[bool; 1024],
    target: Target,
) -> bool
    ensures { TellsStep (kind_named kind) (S.card source.now) records.now rests.now (target_named target) result }
{
    match (kind, target) {
        (Kind::Open, Target::End) => false,
        (Kind::Open, Target::Node(k)) => label_covers(source, records, rests, k),
        (Kind::Closed, Target::End) => holds_false(records, rests),
        (Kind::Closed, Target::Node(k)) => covers_label(source, records, rests, k),
    }
}

/// The rest of each formula by the reading of a move: the cautious one in an open card, the generous one in a closed card.
pub fn rests_by(
    kind: Kind,
    records: &[FormulaRecord],
    slots: &[Slot<FormulaKey>],
    m: MoveRecord,
) -> [Option<u16>; 1024]
    ensures { Ready records.now slots.now → AllRested (reading_of (kind_named kind) (move_of m)) records.now result }
{
    match kind {
        Kind::Open => rests(records, slots, &Cautious(m)),
        Kind::Closed => rests(records, slots, &Generous(m)),
    }
}

//! The check of a card.
ghost use Rattle.std.specs.Prelude.{◌≡◌, ◌≤◌, length};
ghost use Rattle.rules.specs.Laws.{game_of};
ghost use Rattle.rules.specs.Shown.{view};
ghost use Rattle.tableau.specs.Conditions.{at_root};
ghost use Rattle.records.specs.Raw.{model};
ghost use Rattle.marking.specs.Checks.{Means, checked_as, checks};
ghost use Rattle.marking.specs.Roots.{JudgesRoot, enough as enough_for};

use crate::leaves::refused;
use crate::listing::list_formulas;
use crate::node_by_node::judge_nodes;
use crate::terms::Terms;
use crate::verdict::{Marked, verdict_of};
use card::entries::kind_of;
use card::source::CardSource;
use card::variables::Variables;
use faults::Buffer;
use faults::card::{CardFault, CardList, CardReason};
use index::{Slot, enough};
use records::FormulaRecord;
use rested::key::FormulaKey;
use rules::specification::Specification;
use steps::kept::root_kept;

/// Refuses an index that is too short.
fn enough_slots(slots: &[Slot<FormulaKey>]) -> Result<(), Buffer>
    ensures { result ≡ enough_for (length slots.now) }
{
    if !enough(slots) {
        return Err(Buffer::Index);
    }
    Ok(())
}

/// Judges the root.
fn judge_root<S: CardSource>(
    source: &S,
    records: &[FormulaRecord],
    initial: u16,
) -> Result<(), CardFault>
    ensures { JudgesRoot (S.card source.now) records.now initial result }
{
    if !root_kept(source, records, initial) {
        return Err(refused(CardReason::Root, CardList::Nodes, 0));
    }
    Ok(())
}

/// Checks a card from any source: the verdict with the depth, or the first condition that fails. The slots, at least 2,048, are memory for
/// an index of the card's formulas; they are free to hold anything afterwards.
pub fn check<S: CardSource>(
    specification: &Specification,
    source: &S,
    slots: &mut [Slot<FormulaKey>],
) -> Result<Marked, CardFault>
    ensures value { checked_as result ≡ checks (length slots.old) (game_of (view specification.now)) (model (S.card source.now)) }
    ensures meaning { 2048 ≤ length slots.old → Means (game_of (view specification.now)) (model (S.card source.now)) (checked_as result) }
{
    enough_slots(slots)?;
    let listing = list_formulas(specification, source, slots)?;
    // Two calls, whose contracts say the two fields; a function for both would say the same once more.
    let terms = Terms {
        variables: Variables {
            environment: specification.environment_count(),
            system: specification.system_count(),
        },
        kind: kind_of(source),
        safety: listing.places.safety,
        records: listing.records.as_slice(),
        slots,
    };
    judge_root(source, terms.records, listing.places.initial)?;
    judge_nodes(source, &terms)?;
    Ok(verdict_of(source))
}

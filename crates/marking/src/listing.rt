//! What is judged before the root: counts, the form of all entries, equal formulas, and the specification's formulas.
ghost use Rattle.std.specs.Prelude.{◌≤◌, length};
ghost use Rattle.rules.specs.Laws.{game_of};
ghost use Rattle.rules.specs.Shown.{view};
ghost use Rattle.records.specs.Raw.{model};
ghost use Rattle.tableau.specs.Conditions.{before_root};
ghost use Rattle.judged.specs.Judged.{Judges};
ghost use Rattle.marking.specs.Listings.{Lists};

use crate::leaves::refused;
use card::source::CardSource;
use card::variables::Variables;
use faults::card::{CardFault, CardList, CardReason};
use formed::counts::counts_right;
use formed::entries::entries_formed;
use formed::equal::index_formulas;
use formed::{Records, formulas_of};
use index::Slot;
use located::{Places, spec_places};
use rested::key::FormulaKey;
use rules::specification::Specification;

/// A card's formulas, and where the initial and the safety formula stand among them.
#[derive(Clone, Copy)]
pub(crate) struct Listing {
    pub(crate) records: Records,
    pub(crate) places: Places,
}

/// Judges all that comes before the root. Where it passes, the slots index the card's formulas.
pub(crate) fn list_formulas<S: CardSource>(
    specification: &Specification,
    source: &S,
    slots: &mut [Slot<FormulaKey>],
) -> Result<Listing, CardFault>
    ensures judged { 2048 ≤ length slots.old → Judges (game_of (view specification.now)) (model (S.card source.now)) (before_root (model (S.card source.now))) result }
    ensures listed { 2048 ≤ length slots.old → Lists (game_of (view specification.now)) (S.card source.now) slots.new result }
{
    counts_right(source)?;
    entries_formed(
        source,
        // Two calls, whose contracts say the two fields; a function for both would say the same once more.
        Variables {
            environment: specification.environment_count(),
            system: specification.system_count(),
        },
    )?;
    let records = formulas_of(source);
    index_formulas(records.as_slice(), slots)?;
    let unlisted = refused(CardReason::Missing, CardList::Formulas, 0);
    let places = spec_places(specification, slots).ok_or(unlisted)?;
    Ok(Listing { records, places })
}

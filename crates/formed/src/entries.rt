//! The form of every entry, list by list.
ghost use Rattle.std.specs.Prelude.{◌≡◌, map, length};
ghost use Rattle.temporal.specs.Game.{Spec};
ghost use Rattle.tableau.specs.Lists.{span};
ghost use Rattle.records.specs.Raw.{model};
ghost use Rattle.card.specs.Variables.{HasVariables};
ghost use Rattle.judged.specs.Judged.{Judges};
ghost use Rattle.formed.specs.Conditions.{form_conditions, unformed_at};
ghost use Rattle.formed.specs.Sizes.{HasSizes};

use crate::form::{Formed, Sizes};
use card::entry::all_entries;
use card::source::CardSource;
use card::variables::Variables;
use faults::card::{CardFault, CardList, CardReason};
use records::{FormulaRecord, MoveRecord, NodeRecord};

/// The refusal of an entry of bad form.
fn unformed(list: CardList, place: usize) -> CardFault
    ensures { result ≡ unformed_at list place }
{
    CardFault::Refused {
        reason: CardReason::Entry,
        list,
        place,
    }
}

/// Refuses the first entry of bad form of a list.
fn list_formed<S: CardSource, E: Formed>(source: &S, sizes: Sizes) -> Result<(), CardFault>
    ensures { (spec : Spec) → HasSizes spec (S.card source.now) sizes → Judges spec (model (S.card source.now)) (map E.condition (span (length (E.listed (S.card source.now))) 0)) result }
{
    for (i, entry) in all_entries::<S, E>(source).enumerate() {
        if !entry.is_formed(i, sizes) {
            return Err(unformed(E::list(), i));
        }
    }
    Ok(())
}

/// Refuses the first entry of bad form, for a specification with so many variables: formulas first, then labels, nodes and moves.
pub fn entries_formed<S: CardSource>(source: &S, variables: Variables) -> Result<(), CardFault>
    ensures { (spec : Spec) → HasVariables spec variables → Judges spec (model (S.card source.now)) (form_conditions (model (S.card source.now))) result }
{
    let sizes = Sizes {
        variables,
        formulas: source.formula_count(),
        labels: source.label_count(),
        moves: source.move_count(),
    };
    list_formed::<S, FormulaRecord>(source, sizes)?;
    list_formed::<S, u16>(source, sizes)?;
    list_formed::<S, NodeRecord>(source, sizes)?;
    list_formed::<S, MoveRecord>(source, sizes)
}

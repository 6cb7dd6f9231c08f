//! Counts and kind.
ghost use Rattle.temporal.specs.Game.{Spec};
ghost use Rattle.records.specs.Raw.{model};
ghost use Rattle.judged.specs.Judged.{Judges};
ghost use Rattle.formed.specs.Conditions.{count_conditions};

use card::limits::check_counts;
use card::source::CardSource;
use faults::card::CardFault;

/// Refuses a card with a count or a kind outside its limits.
pub fn counts_right<S: CardSource>(source: &S) -> Result<(), CardFault>
    ensures { (spec : Spec) → Judges spec (model (S.card source.now)) count_conditions result }
{
    check_counts(source)
}

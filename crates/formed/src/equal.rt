//! Equal formulas: the index of a card's formulas, each entered once.
ghost use Rattle.std.specs.Prelude.{◌≡◌, ◌≤◌, map, length, OnOk};
ghost use Rattle.temporal.specs.Game.{Spec};
ghost use Rattle.tableau.specs.Lists.{span};
ghost use Rattle.tableau.specs.Card.{Card};
ghost use Rattle.tableau.specs.Conditions.{new_formula};
ghost use Rattle.index.specs.Keyed.{Indexed};
ghost use Rattle.records.specs.Raw.{entry_of};
ghost use Rattle.rested.specs.Listing.{key_of, key_code};
ghost use Rattle.judged.specs.Judged.{Judges};
ghost use Rattle.formed.specs.Conditions.{equal_at};

use faults::card::{CardFault, CardList, CardReason};
use index::{Slot, clear, find, insert};
use records::FormulaRecord;
use rested::key::FormulaKey;

/// The refusal of a formula that equals an earlier one.
fn equal_formula(place: usize) -> CardFault
    ensures { result ≡ equal_at place }
{
    CardFault::Refused {
        reason: CardReason::Equal,
        list: CardList::Formulas,
        place,
    }
}

/// Clears the slots and enters the records in order, each under its number; a card has at most 1,024 formulas, and 2,048 slots have room
/// for them. The first record that equals an earlier one is refused.
pub fn index_formulas(
    records: &[FormulaRecord],
    slots: &mut [Slot<FormulaKey>],
) -> Result<(), CardFault>
    ensures judged { length records.now ≤ 1024 → 2048 ≤ length slots.old → (spec : Spec) (c : Card) → c.formulas ≡ map entry_of records.now → Judges spec c (map new_formula (span (length records.now) 0)) result }
    ensures indexed { length records.now ≤ 1024 → 2048 ≤ length slots.old → OnOk result (Indexed key_code slots.new (map key_of records.now)) }
{
    clear(slots);
    for (i, formula) in records.iter().enumerate() {
        // No card has more formulas, and of a longer list nothing is promised.
        if i >= 1024 {
            break;
        }
        let key = FormulaKey { formula: *formula };
        if find(slots, &key).is_some() {
            return Err(equal_formula(i));
        }
        insert(slots, key, i as u16);
    }
    Ok(())
}

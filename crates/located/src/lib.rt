//! Where a card's list of formulas has the formulas of a specification.
#![tactic(auto)]

ghost use Rattle.std.specs.Prelude.{◌≡◌, List, slice_index};
ghost use Rattle.records.specs.declared.FormulaRecord.{FormulaRecord as Record};
ghost use Rattle.rested.specs.Listing.{Ready};
ghost use Rattle.rules.specs.Laws.{game_of};
ghost use Rattle.rules.specs.Shown.{view};
ghost use Rattle.located.specs.Located.{Located};
ghost use Rattle.located.specs.Numbers.{Numbers, renumbered};

use formulas::Formula;
use index::Slot;
use rested::key::FormulaKey;
use rested::rest::listed;
use rules::specification::Specification;

/// The numbers of the initial and of the safety formula in a card's list.
#[derive(Clone, Copy)]
pub struct Places {
    pub initial: u16,
    pub safety: u16,
}

/// The number that is kept for formula k of the specification; 0 past the end.
fn number_of(numbers: &[u16; 256], k: usize) -> u16
    ensures { result ≡ slice_index numbers.now k }
{
    numbers.get(k).copied().unwrap_or(0)
}

/// An entry of the specification, its parts by the numbers that they have in the card's list.
fn renumbered(numbers: &[u16; 256], formula: Formula) -> Formula
    ensures { result ≡ renumbered numbers.now formula }
{
    match formula {
        Formula::And(a, b) => Formula::And(
            number_of(numbers, a as usize),
            number_of(numbers, b as usize),
        ),
        Formula::Or(a, b) => Formula::Or(
            number_of(numbers, a as usize),
            number_of(numbers, b as usize),
        ),
        Formula::Next(n, a) => Formula::Next(n, number_of(numbers, a as usize)),
        Formula::Always(n, m, a) => Formula::Always(n, m, number_of(numbers, a as usize)),
        Formula::Eventually(n, m, a) => Formula::Eventually(n, m, number_of(numbers, a as usize)),
        leaf => leaf,
    }
}

/// The numbers that the entries' formulas have in the card's list, parts first; none where one of them is not listed.
fn numbers_of(entries: &[Formula], slots: &[Slot<FormulaKey>]) -> Option<[u16; 256]>
    ensures { Numbers entries.now slots.now result }
{
    // No heap: an array for the largest list.
    let mut numbers = [0; 256];
    for (i, entry) in entries.iter().enumerate().take(256) {
        numbers[i] = listed(slots, renumbered(&numbers, *entry).into())?;
    }
    Some(numbers)
}

/// The places of the formulas numbered `initial` and `safety` in the specification.
fn places_of(numbers: &[u16; 256], initial: usize, safety: usize) -> Places
    ensures { result ≡ record { initial = slice_index numbers.now initial; safety = slice_index numbers.now safety } }
{
    Places {
        initial: number_of(numbers, initial),
        safety: number_of(numbers, safety),
    }
}

/// Looks the specification's formulas up in the card's list, parts first; none where one of them is not listed.
pub fn spec_places(specification: &Specification, slots: &[Slot<FormulaKey>]) -> Option<Places>
    ensures { (rs : List Record) → Ready rs slots.now → Located (game_of (view specification.now)) rs result }
{
    let numbers = numbers_of(specification.formulas(), slots)?;
    Some(places_of(&numbers, specification.initial(), specification.safety()))
}

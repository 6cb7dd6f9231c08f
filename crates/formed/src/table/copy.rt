//! Copying a card's formulas, and reading the copy.
ghost use Rattle.std.specs.Prelude.{◌≡◌, ◌<◌, Some, length, take};
ghost use Rattle.std.specs.List.{slice_get};
ghost use Rattle.formed.specs.Copied.{records_of};

use super::Records;
use card::source::CardSource;
use records::FormulaRecord;
use std::array;

/// What stands in a table before any formula is copied.
const BLANK: FormulaRecord = FormulaRecord {
    kind: 0,
    variable: 0,
    a: 0,
    b: 0,
    n: 0,
    m: 0,
};

/// The formula of a card at a place below the count; at any other the source is not asked.
fn formula_below<S: CardSource>(source: &S, count: usize, place: usize) -> FormulaRecord
    ensures { place < count → place < length (S.card source.now).formulas → Some result ≡ slice_get (S.card source.now).formulas place }
{
    if place >= count {
        return BLANK;
    }
    source.formula_at(place).unwrap_or(BLANK)
}

/// The formulas of a card, at most 1,024 of them.
pub fn formulas_of<S: CardSource>(source: &S) -> Records
    ensures { records_of result ≡ take 1024 (S.card source.now).formulas }
{
    let count = source.formula_count().min(1024);
    Records {
        table: array::from_fn(move |place| formula_below(source, count, place)),
        count,
    }
}

impl Records {
    pub fn as_slice(&self) -> &[FormulaRecord]
        ensures { result.now ≡ records_of self.now }
    {
        &self.table[..self.count]
    }
}

//! What the nodes of a card are judged by.
use card::entries::Kind;
use card::variables::Variables;
use index::Slot;
use records::FormulaRecord;
use rested::key::FormulaKey;

/// How many variables the specification has, the card's kind, the number of the safety formula in the card's list, and the card's formulas with
/// the slots that index them.
#[derive(Clone, Copy)]
pub(crate) struct Terms<'a> {
    pub(crate) variables: Variables,
    pub(crate) kind: Kind,
    pub(crate) safety: u16,
    pub(crate) records: &'a [FormulaRecord],
    pub(crate) slots: &'a [Slot<FormulaKey>],
}

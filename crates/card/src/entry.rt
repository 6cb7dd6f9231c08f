//! The entries of a card's lists in one form for all four lists, and their iterator.
ghost use Rattle.std.specs.Prelude.{◌≡◌, ◌<◌, ◌^◌, List, length, drop};
ghost use Rattle.std.specs.List.{slice_get};
ghost use Rattle.std.specs.Iterator.{YieldsFirst, item_count};
ghost use Rattle.records.specs.Raw.{RawCard};

use crate::source::CardSource;
use records::{FormulaRecord, MoveRecord, NodeRecord};
use std::marker::PhantomData;

/// What one of a card's lists holds: formulas, labels (as numbers of formulas), nodes or moves.
pub trait Entry: Copy {
    /// The list of a card that has such entries.
    ghost listed: { RawCard → List Self };

    /// How many there are.
    fn count<S: CardSource>(source: &S) -> usize
        ensures { result ≡ length (listed (S.card source.now)) };

    /// The entry at a place of the list.
    fn at<S: CardSource>(source: &S, i: usize) -> Option<Self>
        ensures { result ≡ slice_get (listed (S.card source.now)) i };
}

impl Entry for FormulaRecord {
    ghost listed = { λ c. c.formulas };

    fn count<S: CardSource>(source: &S) -> usize {
        source.formula_count()
    }

    fn at<S: CardSource>(source: &S, i: usize) -> Option<FormulaRecord> {
        source.formula_at(i)
    }
}

impl Entry for u16 {
    ghost listed = { λ c. c.labels };

    fn count<S: CardSource>(source: &S) -> usize {
        source.label_count()
    }

    fn at<S: CardSource>(source: &S, i: usize) -> Option<u16> {
        source.label_at(i)
    }
}

impl Entry for NodeRecord {
    ghost listed = { λ c. c.nodes };

    fn count<S: CardSource>(source: &S) -> usize {
        source.node_count()
    }

    fn at<S: CardSource>(source: &S, i: usize) -> Option<NodeRecord> {
        source.node_at(i)
    }
}

impl Entry for MoveRecord {
    ghost listed = { λ c. c.moves };

    fn count<S: CardSource>(source: &S) -> usize {
        source.move_count()
    }

    fn at<S: CardSource>(source: &S, i: usize) -> Option<MoveRecord> {
        source.move_at(i)
    }
}

/// The entries of one of a card's lists, in order: those from `next` on are left.
#[derive(Drop)]
pub struct Entries<'a, S: CardSource, E: Entry> {
    source: &'a S,
    next: usize,
    count: usize,
    of: PhantomData<E>,
    ghost counted: { count ≡ length (E.listed (S.card source.now)) },
}

/// All entries of a list of a card, in order.
pub fn all_entries<S: CardSource, E: Entry>(source: &S) -> Entries<'_, S, E>
    ensures all { drop result.next (E.listed (S.card result.source.now)) ≡ E.listed (S.card source.now) }
    ensures few { length (E.listed (S.card source.now)) < 2 ^ 64 }
{
    Entries {
        source,
        next: 0,
        count: E::count(source),
        of: PhantomData,
    }
}

impl<S: CardSource, E: Entry> Iterator for Entries<'_, S, E> {
    type Item = E;

    ghost next_gives = { YieldsFirst (λ s. drop s.next (E.listed (S.card s.source.now))) };

    ghost remaining = { item_count (λ s. drop s.next (E.listed (S.card s.source.now))) };

    fn next(&mut self) -> Option<E> {
        if self.next >= self.count {
            return None;
        }
        let entry = E::at(self.source, self.next);
        self.next += 1;
        entry
    }
}

//! A card in the bytes of a card file.
ghost use Rattle.std.specs.Prelude.{◌≡◌, ◌+◌, ◌*◌, ◌<◌, ◌^◌};
ghost use Rattle.std.specs.List.{slice_get};
ghost use Rattle.card.specs.Layout.{entries};
ghost use Rattle.card.specs.Trailer.{card_in};

mod opening;

use crate::counts::Counts;
use crate::layout::Stored;
use crate::source::CardSource;
use records::{FormulaRecord, MoveRecord, NodeRecord};

/// The bytes, and the card's kind and counts.
#[derive(Clone, Copy)]
pub struct FileSource<'a> {
    bytes: &'a [u8],
    counts: Counts,
}

impl FileSource<'_> {
    /// Entry i of a list of `count` entries that starts at this byte.
    fn entry<E: Stored>(&self, count: u16, start: usize, i: usize) -> Option<E>
        requires { start < 2 ^ 31 }
        ensures { result ≡ slice_get (entries (E.read_from self.now.bytes.now) E.SIZE start count) i }
    {
        if i >= count as usize {
            return None;
        }
        Some(E::read(self.bytes, start + E::SIZE * i))
    }
}

impl CardSource for FileSource<'_> {
    ghost card = { λ s. card_in s.bytes.now s.counts.kind s.counts.formulas s.counts.labels s.counts.nodes s.counts.moves };

    fn kind(&self) -> u16 {
        self.counts.kind
    }

    fn formula_count(&self) -> usize {
        self.counts.formulas as usize
    }

    fn label_count(&self) -> usize {
        self.counts.labels as usize
    }

    fn node_count(&self) -> usize {
        self.counts.nodes as usize
    }

    fn move_count(&self) -> usize {
        self.counts.moves as usize
    }

    fn formula_at(&self, i: usize) -> Option<FormulaRecord> {
        self.entry(self.counts.formulas, 0, i)
    }

    fn label_at(&self, i: usize) -> Option<u16> {
        self.entry(self.counts.labels, self.counts.labels_at(), i)
    }

    fn node_at(&self, i: usize) -> Option<NodeRecord> {
        self.entry(self.counts.nodes, self.counts.nodes_at(), i)
    }

    fn move_at(&self, i: usize) -> Option<MoveRecord> {
        self.entry(self.counts.moves, self.counts.moves_at(), i)
    }
}

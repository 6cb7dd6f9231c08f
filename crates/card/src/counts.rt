//! The kind and the counts of a card, as the trailer of its file has them, and where the lists start by them.
ghost use Rattle.std.specs.Prelude.{◌≡◌, ◌≤◌};
ghost use Rattle.std.specs.List.{flat_map};
ghost use Rattle.card.specs.Layout.{word_bytes};
ghost use Rattle.card.specs.Trailer.{labels_from, nodes_from, moves_from};
ghost use Rattle.card.specs.Written.{fields};

use crate::layout::{high, low};

/// The kind of a card, and how many entries each of its lists has.
#[derive(Clone, Copy)]
pub(crate) struct Counts {
    pub(crate) kind: u16,
    pub(crate) formulas: u16,
    pub(crate) labels: u16,
    pub(crate) nodes: u16,
    pub(crate) moves: u16,
}

impl Counts {
    /// Where the labels start; the formulas start at byte 0.
    pub(crate) fn labels_at(self) -> usize
        ensures { result ≡ labels_from self.formulas }
    {
        10 * self.formulas as usize
    }

    /// Where the nodes start.
    pub(crate) fn nodes_at(self) -> usize
        ensures { result ≡ nodes_from self.formulas self.labels }
    {
        self.labels_at() + 2 * self.labels as usize
    }

    /// Where the moves start.
    pub(crate) fn moves_at(self) -> usize
        ensures { result ≡ moves_from self.formulas self.labels self.nodes }
    {
        self.nodes_at() + 8 * self.nodes as usize
    }

    /// The trailer of a card within its limits.
    pub(crate) fn to_bytes(self) -> [u8; 20]
        requires { moves_from self.formulas self.labels self.nodes ≤ 65535 }
        ensures { result ≡ flat_map word_bytes (fields self.kind self.formulas self.labels self.nodes self.moves) }
    {
        let labels_at = self.labels_at() as u16;
        let nodes_at = self.nodes_at() as u16;
        let moves_at = self.moves_at() as u16;
        [
            0,
            0,
            low(self.formulas),
            high(self.formulas),
            low(labels_at),
            high(labels_at),
            low(self.labels),
            high(self.labels),
            low(nodes_at),
            high(nodes_at),
            low(self.nodes),
            high(self.nodes),
            low(moves_at),
            high(moves_at),
            low(self.moves),
            high(self.moves),
            low(self.kind),
            high(self.kind),
            20,
            0,
        ]
    }
}

//! A card in memory: a sheet of tables.
ghost use Rattle.records.specs.Raw.{RawCard};

use crate::source::CardSource;
use records::{FormulaRecord, MoveRecord, NodeRecord};

/// The kind and the four tables, whatever they hold.
#[derive(Clone, Copy)]
pub struct Sheet<'a> {
    pub kind: u16,
    pub formulas: &'a [FormulaRecord],
    pub labels: &'a [u16],
    pub nodes: &'a [NodeRecord],
    pub moves: &'a [MoveRecord],
}

impl CardSource for Sheet<'_> {
    ghost card = { λ s. record { kind = s.kind; formulas = s.formulas.now; labels = s.labels.now; nodes = s.nodes.now; moves = s.moves.now } };

    fn kind(&self) -> u16 {
        self.kind
    }

    fn formula_count(&self) -> usize {
        self.formulas.len()
    }

    fn label_count(&self) -> usize {
        self.labels.len()
    }

    fn node_count(&self) -> usize {
        self.nodes.len()
    }

    fn move_count(&self) -> usize {
        self.moves.len()
    }

    fn formula_at(&self, i: usize) -> Option<FormulaRecord> {
        self.formulas.get(i).copied()
    }

    fn label_at(&self, i: usize) -> Option<u16> {
        self.labels.get(i).copied()
    }

    fn node_at(&self, i: usize) -> Option<NodeRecord> {
        self.nodes.get(i).copied()
    }

    fn move_at(&self, i: usize) -> Option<MoveRecord> {
        self.moves.get(i).copied()
    }
}

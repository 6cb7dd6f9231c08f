//! Sources of cards.
ghost use Rattle.std.specs.Prelude.{◌≡◌, length};
ghost use Rattle.std.specs.List.{slice_get};
ghost use Rattle.records.specs.Raw.{RawCard};

use records::{FormulaRecord, MoveRecord, NodeRecord};

/// A source of one fixed card. Asked for an entry of a list it answers that entry, and none at or past the list's count.
pub trait CardSource {
    ghost card: { Self → RawCard };

    // Each list has a count and an entry of its own, for entries have different types; `Entry` (module `entry`) is generic over them.

    // As a file holds it; `kind_of` says which kind it is.
    fn kind(&self) -> u16
        ensures { result ≡ (card self.now).kind };

    fn formula_count(&self) -> usize
        ensures { result ≡ length (card self.now).formulas };

    fn label_count(&self) -> usize
        ensures { result ≡ length (card self.now).labels };

    fn node_count(&self) -> usize
        ensures { result ≡ length (card self.now).nodes };

    fn move_count(&self) -> usize
        ensures { result ≡ length (card self.now).moves };

    fn formula_at(&self, i: usize) -> Option<FormulaRecord>
        ensures { result ≡ slice_get (card self.now).formulas i };

    fn label_at(&self, i: usize) -> Option<u16>
        ensures { result ≡ slice_get (card self.now).labels i };

    fn node_at(&self, i: usize) -> Option<NodeRecord>
        ensures { result ≡ slice_get (card self.now).nodes i };

    fn move_at(&self, i: usize) -> Option<MoveRecord>
        ensures { result ≡ slice_get (card self.now).moves i };
}

//! Entries of a card by number, for every number: past a list's end stand a label of false, a node with nothing, and a move that fixes
//! nothing and leads to the end.
ghost use Rattle.std.specs.Prelude.{◌≡◌};
ghost use Rattle.tableau.specs.Card.{kind_of, label_at, node_at, move_at};
ghost use Rattle.records.specs.Raw.{model, node_of, move_of, target_of};
ghost use Rattle.card.specs.Named.{kind_named, target_named, kind_number};

use crate::source::CardSource;
use records::{MoveRecord, NodeRecord};

/// A node with nothing.
const NO_NODE: NodeRecord = NodeRecord {
    first_label: 0,
    label_count: 0,
    first_move: 0,
    move_count: 0,
};

/// A move that fixes nothing and leads to the end.
const NO_MOVE: MoveRecord = MoveRecord {
    env_mask: 0,
    env_values: 0,
    sys_mask: 0,
    sys_values: 0,
    target: 65_535,
};

/// What a card claims: open, that the conditions can be kept; closed, that they cannot.
#[derive(Clone, Copy, PartialEq, Eq, Debug)]
pub enum Kind {
    Open = 1,
    Closed = 2,
}

/// Where a move leads.
#[derive(Clone, Copy, PartialEq, Eq, Debug)]
pub enum Target {
    End,
    Node(u16),
}

impl Kind {
    /// The number by which records write the kind.
    pub fn number(self) -> u8
        ensures { result ≡ kind_number self }
    {
        self as u8
    }
}

/// The kind of a card; a number that is not that of an open card counts as closed.
pub fn kind_of<S: CardSource>(source: &S) -> Kind
    ensures { kind_named result ≡ kind_of (model (S.card source.now)) }
{
    match source.kind() {
        1 => Kind::Open,
        _ => Kind::Closed,
    }
}

/// The target of a move: records write the end as 65,535.
pub fn target_of(m: MoveRecord) -> Target
    ensures { target_named result ≡ target_of m.target }
{
    match m.target {
        65_535 => Target::End,
        node => Target::Node(node),
    }
}

/// The formula number of a label entry. (This and the two below differ in what stands past the end, and are one call each.)
pub fn label_of<S: CardSource>(source: &S, i: usize) -> u16
    ensures { result ≡ label_at (model (S.card source.now)) i }
{
    source.label_at(i).unwrap_or(0)
}

/// A node by its number.
pub fn node_of<S: CardSource>(source: &S, i: usize) -> NodeRecord
    ensures { node_of result ≡ node_at (model (S.card source.now)) i }
{
    source.node_at(i).unwrap_or(NO_NODE)
}

/// A move by its number.
pub fn move_of<S: CardSource>(source: &S, i: usize) -> MoveRecord
    ensures { move_of result ≡ move_at (model (S.card source.now)) i }
{
    source.move_at(i).unwrap_or(NO_MOVE)
}

//! The covering of a node by its moves.
ghost use Rattle.std.specs.Prelude.{◌≡◌};
ghost use Rattle.tableau.specs.Conditions.{same_input};
ghost use Rattle.records.specs.Raw.{move_of as move_named};
ghost use Rattle.coverings.specs.Coverings.{DecidesOnce, alike, DecidesCovering};

use crate::bitmap::Bitmap;
use crate::cube::{Side, cube_of};
use card::entries::{Kind, kind_of, move_of};
use card::source::CardSource;
use card::variables::Variables;
use records::{MoveRecord, NodeRecord};

// A source and one of its nodes are no one value: the node is what is asked, and its source may be of any type.
/// Does each valuation of one side's variables agree with exactly one of the node's moves?
fn covers_once<S: CardSource>(source: &S, side: Side, variables: usize, node: NodeRecord) -> bool
    ensures { DecidesOnce side (S.card source.now) variables node result }
{
    let mut marks = Bitmap::new(variables);
    // Past the list's end the default entry counts, which an iterator over the list would not give.
    for k in 0..node.move_count as usize {
        let x = move_of(source, node.first_move as usize + k);
        if !marks.mark(cube_of(side, x)) {
            return false;
        }
    }
    marks.is_full()
}

/// Do two moves have the same input mask and values?
fn same_input(x: MoveRecord, y: MoveRecord) -> bool
    ensures { result ≡ same_input (move_named x) (move_named y) }
{
    x.env_mask == y.env_mask && x.env_values == y.env_values
}

/// Have all moves of the node the same input mask and values?
fn inputs_alike<S: CardSource>(source: &S, node: NodeRecord) -> bool
    ensures { result ≡ alike (S.card source.now) node }
{
    let first = move_of(source, node.first_move as usize);
    // A closure of `all` would have to know that the sum is in range, and past the list's end the default entry counts here too.
    for k in 0..node.move_count as usize {
        let x = move_of(source, node.first_move as usize + k);
        if !same_input(first, x) {
            return false;
        }
    }
    true
}

/// Do the moves of a node cover as its card asks? If the card is open, each input has to agree with exactly one move; if it is closed,
/// all moves have one input, and each reply has to agree with exactly one move.
pub fn covering_kept<S: CardSource>(source: &S, variables: Variables, node: NodeRecord) -> bool
    ensures { DecidesCovering (S.card source.now) variables node result }
{
    match kind_of(source) {
        Kind::Open => covers_once(source, Side::Environment, variables.environment, node),
        Kind::Closed => {
            inputs_alike(source, node) && covers_once(source, Side::System, variables.system, node)
        }
    }
}

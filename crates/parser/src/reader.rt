//! What a reader holds, and what it answers.
ghost use Rattle.std.specs.Prelude.{◌≡◌, ◌≤◌, true, length, take};
ghost use Rattle.nodes.specs.Trees.{ordered as in_order};

use super::table::Names;
use nodes::node::Node;

/// The formulas read so far, parts before wholes, and the names met so far. There is no heap, so the nodes are an array and a count.
#[derive(Drop)]
pub(crate) struct Reader {
    pub(crate) nodes: [Node; 1024],
    pub(crate) count: usize,
    pub(crate) names: Names,
    ghost held: { count ≤ length nodes },
    ghost ordered: { in_order (take count nodes) ≡ true },
}

/// A place in a text of at most 1,024 bytes.
#[derive(Clone, Copy)]
pub(crate) struct Cursor<'a> {
    pub(crate) text: &'a [u8],
    pub(crate) at: usize,
    ghost short: { length text.now ≤ 1024 },
    ghost inside: { at ≤ length text.now },
}

/// A formula that was read: the place of its node, and where the text goes on.
/// It has a type of its own, as `Bound` has: a generic pair would lose the name `root`, and no function takes all of these pairs.
#[derive(Clone, Copy)]
pub(crate) struct Part {
    pub(crate) root: usize,
    pub(crate) next: usize,
}

/// The places of the two formulas of a text.
#[derive(Clone, Copy)]
pub(crate) struct Roots {
    pub(crate) initial: usize,
    pub(crate) safety: usize,
}

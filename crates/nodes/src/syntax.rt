//! The two formulas of a text as it writes them.
ghost use Rattle.std.specs.Prelude.{◌≡◌, ◌<◌, ◌≤◌, true, length, take};
ghost use Rattle.nodes.specs.Trees.{ordered as in_order};

use super::node::Node;

/// Both formulas in one list of at most 1,024 nodes, each named by its place.
/// The type is Copy and takes no heap, so the list is an array and a count.
#[derive(Clone, Copy)]
pub struct Syntax {
    pub nodes: [Node; 1024],
    pub count: usize,
    pub initial: usize,
    pub safety: usize,
    ghost held: { count ≤ length nodes },
    ghost ordered: { in_order (take count nodes) ≡ true },
    ghost rooted: { (initial < count) × (safety < count) },
}

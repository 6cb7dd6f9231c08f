//! Depths of a closed card: that of a node is 1 plus the largest of the targets of its moves, the end counting 0.
#![tactic(auto)]

ghost use Rattle.std.specs.Prelude.{◌≡◌, ◌+◌, ◌-◌, ◌^◌, min, max};
ghost use Rattle.tableau.specs.Judge.{target_depth, depth_at};
ghost use Rattle.records.specs.Raw.{model};
ghost use Rattle.card.specs.Named.{target_named};
ghost use Rattle.depth.specs.Descending.{Descending};
ghost use Rattle.depth.specs.Deepest.{held_depth, deepest_from};

use card::entries::{Target, node_of, target_of};
use card::source::CardSource;
use records::NodeRecord;

/// The largest count of a card's nodes.
const NODES: usize = 1024;

/// The depth held for a node; a node past the largest count has none.
fn node_depth(depths: &[u16; 1024], node: usize) -> u16
    ensures { result ≡ held_depth depths.now node }
{
    depths.get(node).copied().unwrap_or(0)
}

/// The depth of a target, by the depths of the nodes.
fn target_depth(depths: &[u16; 1024], target: Target) -> u16
    ensures { result ≡ target_depth (held_depth depths.now) (target_named target) }
{
    match target {
        Target::End => 0,
        Target::Node(node) => node_depth(depths, node as usize),
    }
}

/// The larger of two depths.
fn deeper(a: u16, b: u16) -> u16
    ensures { result ≡ max a b }
{
    a.max(b)
}

/// The depth of a node whose deepest target has this depth.
fn above(depth: u16) -> u16
    ensures { result ≡ min (depth + 1) (2 ^ 16 - 1) }
{
    depth.saturating_add(1)
}

/// The largest depth of the targets of a node's moves.
fn deepest_target<S: CardSource>(source: &S, node: NodeRecord, depths: &[u16; 1024]) -> u16
    ensures { result ≡ deepest_from (model (S.card source.now)) (held_depth depths.now) node.move_count node.first_move }
{
    let first = node.first_move as usize;
    let mut deepest = 0;
    for k in 0..node.move_count as usize {
        // Past the list's end every move leads to the end, which counts 0: none of these is looked at.
        let Some(taken) = source.move_at(first + k) else {
            break;
        };
        let target = target_of(taken);
        deepest = deeper(deepest, target_depth(depths, target));
    }
    deepest
}

/// The depth of node 0.
pub fn depth<S: CardSource>(source: &S) -> usize
    ensures { Descending (S.card source.now) → result ≡ depth_at (model (S.card source.now)) 0 }
{
    // No heap: an array for the largest list.
    let mut depths = [0; 1024];
    // Later nodes first: each node writes at its own number, and reads at those of its targets.
    for n in (0..source.node_count().min(NODES)).rev() {
        let node = node_of(source, n);
        depths[n] = above(deepest_target(source, node, &depths));
    }
    depths[0] as usize
}

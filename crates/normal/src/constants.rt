//! Which nodes have a constant as their normal form.
ghost use Rattle.std.specs.Prelude.{◌≡◌, ◌≤◌, true, length, None, slice_index_or};
ghost use Rattle.nodes.specs.Trees.{ordered as in_order};
ghost use Rattle.normal.specs.Constants.{Known, joint as joint_of, node_constant, opposite as opposite_of, plan_of};
ghost use Rattle.normal.specs.Constants.{under_connective, under_prefix};

use formulas::junction::Junction;
use nodes::node::{Connective, Node, Prefix};

/// A conjunction or disjunction is a constant, or one of its parts where the other is a constant, or it needs both parts.
#[derive(Clone, Copy)]
pub enum Plan {
    Constant(bool),
    First,
    Second,
    Both,
}

/// What stands at a place, and nothing past the end.
pub fn read<T: Copy>(xs: &[Option<T>], i: usize) -> Option<T>
    ensures { result ≡ slice_index_or xs.now i None }
{
    xs.get(i).copied().flatten()
}

/// The constant that the negation is, if any.
pub fn opposite(a: Option<bool>) -> Option<bool>
    ensures { result ≡ opposite_of a }
{
    a.map(|x| !x)
}

/// How to make a conjunction or disjunction, given the constants that its parts are.
pub fn plan_for(junction: Junction, a: Option<bool>, b: Option<bool>) -> Plan
    ensures { result ≡ plan_of junction a b }
{
    match (junction, a, b) {
        (Junction::And, Some(true), _) => Plan::Second,
        (Junction::And, Some(false), _) => Plan::Constant(false),
        (Junction::And, None, Some(true)) => Plan::First,
        (Junction::And, None, Some(false)) => Plan::Constant(false),
        (Junction::And, None, None) => Plan::Both,
        (Junction::Or, Some(false), _) => Plan::Second,
        (Junction::Or, Some(true), _) => Plan::Constant(true),
        (Junction::Or, None, Some(false)) => Plan::First,
        (Junction::Or, None, Some(true)) => Plan::Constant(true),
        (Junction::Or, None, None) => Plan::Both,
    }
}

/// The constant that a conjunction or disjunction is, given the constants that its parts are.
pub fn joint(junction: Junction, a: Option<bool>, b: Option<bool>) -> Option<bool>
    ensures { result ≡ joint_of junction a b }
{
    match plan_for(junction, a, b) {
        Plan::Constant(x) => Some(x),
        Plan::First => a,
        Plan::Second => b,
        Plan::Both => None,
    }
}

/// The constant that a unary operator gives.
fn under_prefix(prefix: Prefix, a: Option<bool>) -> Option<bool>
    ensures { result ≡ under_prefix prefix a }
{
    match prefix {
        Prefix::Not => opposite(a),
        Prefix::Next(_) | Prefix::Always(_, _) | Prefix::Eventually(_, _) => a,
    }
}

/// The constant that a binary operator gives.
fn under_connective(connective: Connective, a: Option<bool>, b: Option<bool>) -> Option<bool>
    ensures { result ≡ under_connective connective a b }
{
    match connective {
        Connective::And => joint(Junction::And, a, b),
        Connective::Or => joint(Junction::Or, a, b),
        Connective::Implies => joint(Junction::Or, opposite(a), b),
        Connective::Equivalent => {
            let both = joint(Junction::And, a, b);
            let neither = joint(Junction::And, opposite(a), opposite(b));
            joint(Junction::Or, both, neither)
        }
    }
}

/// The constant that a node is, given those that the nodes before it are.
fn node_constant(constants: &[Option<bool>], node: Node) -> Option<bool>
    ensures { result ≡ node_constant constants.now node }
{
    match node {
        Node::Constant(b) => Some(b),
        Node::Variable(_) => None,
        Node::Unary(prefix, a) => under_prefix(prefix, read(constants, a)),
        Node::Binary(connective, a, b) => under_connective(
            connective,
            read(constants, a),
            read(constants, b),
        ),
    }
}

/// For each node the constant that its normal form is, if any.
pub fn constants(nodes: &[Node]) -> [Option<bool>; 1024]
    requires few { length nodes.now ≤ 1024 }
    requires ordered { in_order nodes.now ≡ true }
    ensures { Known nodes.now result }
{
    // No heap: an array for the largest list.
    let mut constants = [None; 1024];
    for (i, node) in nodes.iter().enumerate() {
        constants[i] = node_constant(&constants, *node);
    }
    constants
}

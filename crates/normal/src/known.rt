//! The nodes of a text with their constants.
ghost use Rattle.std.specs.Prelude.{◌≡◌, ◌<◌, ◌≤◌, length};
ghost use Rattle.temporal.specs.Formula.{kind};
ghost use Rattle.normal.specs.Constants.{known};
ghost use Rattle.normal.specs.Operands.{Given, formula_of};

use super::constants::{opposite, read};
use super::operand::Operand;
use nodes::node::Node;

/// The nodes of a text in order, and for each the constant that its normal form is, if any.
#[derive(Clone, Copy)]
pub struct KnownNodes<'a> {
    pub nodes: &'a [Node],
    pub constants: &'a [Option<bool>],
    ghost given: { Given nodes.now constants.now },
}

impl KnownNodes<'_> {
    /// The constant that an operand's normal form is, if any.
    pub(crate) fn constant(&self, operand: Operand) -> Option<bool>
        requires { operand.node < length self.now.nodes.now }
        ensures { result ≡ known (kind (formula_of self.now.nodes.now operand)) }
    {
        let constant = read(self.constants, operand.node);
        if operand.sign {
            constant
        } else {
            opposite(constant)
        }
    }
}

//! A node or its negation.
ghost use Rattle.std.specs.Prelude.{◌≡◌, ◌<◌};
ghost use Rattle.normal.specs.Operands.{Negates, place_of};

/// A node, or its negation where the sign is `false`.
#[derive(Clone, Copy)]
pub struct Operand {
    pub node: usize,
    pub sign: bool,
}

impl Operand {
    /// The negation.
    pub(crate) fn negated(self) -> Operand
        ensures { Negates self result }
    {
        Operand {
            sign: !self.sign,
            ..self
        }
    }

    /// The place of an operand among all, two for each node.
    pub(crate) fn place(self) -> usize
        requires { self.node < 1024 }
        ensures value { result ≡ place_of self.sign self.node }
        ensures bound { result < 2048 }
    {
        2 * self.node + self.sign as usize
    }
}

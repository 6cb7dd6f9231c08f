//! A node of a written formula.

/// A unary operator with its bounds.
#[derive(Clone, Copy)]
pub enum Prefix {
    Not,
    Next(u16),
    Always(u16, u16),
    Eventually(u16, u16),
}

/// A binary operator, tightest first.
#[derive(Clone, Copy)]
pub enum Connective {
    And,
    Or,
    Implies,
    Equivalent,
}

/// A node names its parts by their places in the list.
#[derive(Clone, Copy)]
pub enum Node {
    Constant(bool),
    Variable(u8),
    Unary(Prefix, usize),
    Binary(Connective, usize, usize),
}

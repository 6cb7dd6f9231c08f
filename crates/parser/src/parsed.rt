//! What parsing a text gives.
use super::table::Names;
use nodes::syntax::Syntax;

/// The two formulas as the text writes them, and the names of their variables.
#[derive(Clone, Copy)]
pub struct Parsed {
    pub syntax: Syntax,
    pub names: Names,
}

//! How formulas begin and how they are joined.
ghost use Rattle.std.specs.Prelude.{◌≡◌};
ghost use Rattle.grammar.specs.Grammar.{head_of, symbol_of, prefix_in};

use faults::TextFault;
use lexer::bounds::{read_bound, read_range};
use lexer::token::{Operator, Symbol, Token};
use nodes::node::{Connective, Prefix};

/// A unary operator whose bounds are still to be read.
#[derive(Clone, Copy, PartialEq, Eq, Debug)]
pub enum Unary {
    Not,
    Temporal(Operator),
}

/// How a formula may begin: with a constant, a variable, a unary operator or a parenthesis, and with nothing else.
#[derive(Clone, Copy, PartialEq, Eq, Debug)]
pub enum Head {
    Constant(bool),
    Variable,
    Prefix(Unary),
    Group,
}

/// How a formula begins that begins with this token, if one does.
pub fn head_of(token: Token) -> Option<Head>
    ensures { result ≡ head_of token }
{
    match token {
        Token::Constant(value) => Some(Head::Constant(value)),
        Token::Word => Some(Head::Variable),
        Token::Temporal(operator) => Some(Head::Prefix(Unary::Temporal(operator))),
        Token::Symbol(Symbol::Not) => Some(Head::Prefix(Unary::Not)),
        Token::Symbol(Symbol::Open) => Some(Head::Group),
        _ => None,
    }
}

/// A unary operator that was read with its bounds, and where the text goes on.
/// It has a type of its own, as `Bound` has: a generic pair would lose the name `prefix`, and no function takes all of these pairs.
#[derive(Clone, Copy)]
pub struct Prefixed {
    pub prefix: Prefix,
    pub next: usize,
}

/// The symbol that writes a binary operator. It is a function and no `From`, since neither type is of this crate.
pub fn symbol_of(connective: Connective) -> Symbol
    ensures { result ≡ symbol_of connective }
{
    match connective {
        Connective::And => Symbol::And,
        Connective::Or => Symbol::Or,
        Connective::Implies => Symbol::Implies,
        Connective::Equivalent => Symbol::Equivalent,
    }
}

/// The bounds behind a unary operator: none behind `-`, `[n]` or nothing behind X, `[n,m]` behind G and F.
pub fn read_prefix(text: &[u8], unary: Unary, at: usize) -> Result<Prefixed, TextFault>
    ensures { result ≡ prefix_in text.now unary at }
{
    match unary {
        Unary::Not => Ok(Prefixed {
            prefix: Prefix::Not,
            next: at,
        }),
        Unary::Temporal(Operator::Next) => {
            let bound = read_bound(text, at)?;
            Ok(Prefixed {
                prefix: Prefix::Next(bound.value),
                next: bound.next,
            })
        }
        Unary::Temporal(Operator::Always) => {
            let range = read_range(text, at)?;
            Ok(Prefixed {
                prefix: Prefix::Always(range.low, range.high),
                next: range.next,
            })
        }
        Unary::Temporal(Operator::Eventually) => {
            let range = read_range(text, at)?;
            Ok(Prefixed {
                prefix: Prefix::Eventually(range.low, range.high),
                next: range.next,
            })
        }
    }
}

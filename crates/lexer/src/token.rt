//! What a token is.
ghost use Rattle.std.specs.Prelude.{◌≡◌};
ghost use Rattle.lexer.specs.Bounds.{expected};
ghost use Rattle.lexer.specs.Tokens.{fault_of, is_symbol, is_line, is_end, refusal_of, number_of};

use faults::{Reason, TextFault};

/// The temporal operators: X, G and F.
#[derive(Clone, Copy, PartialEq, Eq, Debug)]
pub enum Operator {
    Next,
    Always,
    Eventually,
}

#[derive(Clone, Copy, PartialEq, Eq, Debug)]
pub enum Symbol {
    Not,
    And,
    Or,
    Implies,
    Equivalent,
    Open,
    Close,
    Left,
    Right,
    Comma,
}

/// A byte or a word that no text may have is unknown; a number above 4,095 counts as 4,096.
#[derive(Clone, Copy, PartialEq, Eq, Debug)]
pub enum Token {
    End,
    Line,
    Unknown,
    Word,
    Constant(bool),
    Temporal(Operator),
    Number(u16),
    Symbol(Symbol),
}

/// A token, where it begins, and where the text goes on behind it.
#[derive(Clone, Copy, PartialEq, Eq, Debug)]
pub struct Lexeme {
    pub token: Token,
    pub from: usize,
    pub next: usize,
}

impl Token {
    /// Whether the token is this symbol.
    pub fn is_symbol(self, symbol: Symbol) -> bool
        ensures { result ≡ is_symbol symbol self }
    {
        self == Token::Symbol(symbol)
    }

    /// Whether the token ends a line.
    pub fn is_line(self) -> bool
        ensures { result ≡ is_line self }
    {
        self == Token::Line
    }

    /// Whether the token is the end of the text.
    pub fn is_end(self) -> bool
        ensures { result ≡ is_end self }
    {
        self == Token::End
    }

    /// Why this token is refused where it may not stand.
    pub fn refusal(self) -> Reason
        ensures { result ≡ refusal_of self }
    {
        match self {
            Token::Unknown => Reason::Unknown,
            _ => Reason::Misplaced,
        }
    }

    /// The number that the token writes.
    pub fn number(self) -> Option<u16>
        ensures { result ≡ number_of self }
    {
        match self {
            Token::Number(value) => Some(value),
            _ => None,
        }
    }
}

impl Lexeme {
    /// A refusal at the place where this token begins.
    pub fn fault(self, reason: Reason) -> TextFault
        ensures { result ≡ fault_of reason self }
    {
        TextFault {
            reason,
            place: self.from,
        }
    }

    /// The refusal of this token where it may not stand.
    pub fn misplaced(self) -> TextFault
        ensures { result ≡ fault_of (refusal_of self.token) self }
    {
        self.fault(self.token.refusal())
    }

    /// Where the text goes on behind this token if it is what has to stand here, else its refusal.
    /// A test in place of its answer would be a closure, and with it a precondition of a public call.
    pub fn expect(self, passes: bool) -> Result<usize, TextFault>
        ensures { result ≡ expected passes self }
    {
        if passes {
            Ok(self.next)
        } else {
            Err(self.misplaced())
        }
    }
}

//! The token at a place of a text.
ghost use Rattle.std.specs.Prelude.{◌≡◌, Bool, ◌+◌, ◌-◌, ◌*◌, ◌≤◌, min, length, drop, slice_index};
ghost use Rattle.std.specs.Str.{bytes_eq};
ghost use Rattle.lexer.specs.Lexer.{is_in, run, part, numeral, word_token, symbol_token, symbol_length, look_at, Sees};

use super::token::{Lexeme, Operator, Symbol, Token};

/// A kind of byte whose runs are one token, or the space between tokens.
/// It stays an enum: a closure in its place is no plainer, since the contract of `run_len` would then range over every test.
#[derive(Clone, Copy)]
pub enum Class {
    Space,
    Digit,
    Letter,
}

impl Class {
    fn contains(self, byte: u8) -> bool
        ensures { result ≡ is_in self byte }
    {
        match self {
            Class::Space => byte == b' ',
            Class::Digit => byte.is_ascii_digit(),
            Class::Letter => byte.is_ascii_alphanumeric() || byte == b'_',
        }
    }
}

/// The bytes from `from` on; past the text there are none.
fn rest(text: &[u8], from: usize) -> &[u8]
    ensures { result.now ≡ drop from text.now }
{
    &text[from.min(text.len())..]
}

/// How many bytes of one class stand from `from` on.
fn run_len(text: &[u8], from: usize, class: Class) -> usize
    ensures { result ≡ run class text.now from }
{
    let bytes = rest(text, from).iter();
    bytes.take_while(|byte| class.contains(**byte)).count()
}

/// Where the run of bytes of one class that begins at `from` ends.
fn run_end(text: &[u8], from: usize, class: Class) -> usize
    ensures value { result ≡ from + run class text.now from }
    ensures bound { ((from ≤ length text.now → result ≤ length text.now)) × (from ≤ result) }
{
    from + run_len(text, from, class)
}

/// A number with one digit more; it stays at 4,096 once it is above 4,095.
fn longer(value: u16, digit: u8) -> u16
    ensures { result ≡ min (value * 10 + (digit - 48)) 4096 }
{
    let digit = u16::from(digit.saturating_sub(b'0'));
    value.saturating_mul(10).saturating_add(digit).min(4096)
}

/// The value of decimal digits, held at 4,096 once it is above 4,095.
fn number(digits: &[u8]) -> u16
    ensures { result ≡ numeral digits.now }
{
    digits.iter().fold(0, |value, digit| longer(value, *digit))
}

fn word(bytes: &[u8]) -> Token
    ensures { result ≡ word_token bytes.now }
{
    if bytes.len() > 15 {
        return Token::Unknown;
    }
    match bytes {
        b"True" => Token::Constant(true),
        b"False" => Token::Constant(false),
        b"X" => Token::Temporal(Operator::Next),
        b"F" => Token::Temporal(Operator::Eventually),
        b"G" => Token::Temporal(Operator::Always),
        _ => Token::Word,
    }
}

/// The byte at a place, and 0 past the text, which no symbol has.
fn byte_at(text: &[u8], i: usize) -> u8
    ensures { result ≡ slice_index text.now i }
{
    text.get(i).copied().unwrap_or(0)
}

fn symbol(a: u8, b: u8, c: u8) -> Token
    ensures { result ≡ symbol_token a b c }
{
    match (a, b, c) {
        (b'\n', _, _) => Token::Line,
        (b'&', _, _) => Token::Symbol(Symbol::And),
        (b'|', _, _) => Token::Symbol(Symbol::Or),
        (b'(', _, _) => Token::Symbol(Symbol::Open),
        (b')', _, _) => Token::Symbol(Symbol::Close),
        (b'[', _, _) => Token::Symbol(Symbol::Left),
        (b']', _, _) => Token::Symbol(Symbol::Right),
        (b',', _, _) => Token::Symbol(Symbol::Comma),
        (b'-', b'>', _) => Token::Symbol(Symbol::Implies),
        (b'-', _, _) => Token::Symbol(Symbol::Not),
        (b'<', b'-', b'>') => Token::Symbol(Symbol::Equivalent),
        _ => Token::Unknown,
    }
}

fn symbol_len(token: Token) -> usize
    ensures { result ≡ symbol_length token }
{
    match token {
        Token::Symbol(Symbol::Implies) => 2,
        Token::Symbol(Symbol::Equivalent) => 3,
        _ => 1,
    }
}

/// The token at `at` or after the spaces there; past the text it is the end.
pub fn look(text: &[u8], at: usize) -> Lexeme
    ensures { Sees text.now at result }
{
    let from = run_end(text, at, Class::Space);
    let Some(&first) = text.get(from) else {
        return Lexeme {
            token: Token::End,
            from,
            next: from,
        };
    };
    if first.is_ascii_alphabetic() {
        let next = run_end(text, from, Class::Letter);
        let token = word(&text[from..next]);
        Lexeme { token, from, next }
    } else if first.is_ascii_digit() {
        let next = run_end(text, from, Class::Digit);
        let token = Token::Number(number(&text[from..next]));
        Lexeme { token, from, next }
    } else {
        let token = symbol(first, byte_at(text, from + 1), byte_at(text, from + 2));
        let next = from + symbol_len(token);
        Lexeme { token, from, next }
    }
}

/// Whether the bytes from `from` to `next`, as far as the text has them, are the given word.
pub fn same_word(text: &[u8], from: usize, next: usize, word: &[u8]) -> bool
    ensures { result ≡ bytes_eq (part text.now from (next - from)) word.now }
{
    let end = next.min(text.len());
    &text[from.min(end)..end] == word
}

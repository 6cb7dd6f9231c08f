//! The lines of a text: header words, line ends and blank lines. A text and a place in it are two parameters here, as in the lexer: unlike for a
//! `Cursor` nothing has to be known of the place, so that a type for both would have nothing to say.
ghost use Rattle.std.specs.Prelude.{◌≡◌, codes};
ghost use Rattle.lexer.specs.Bounds.{then_ok};
ghost use Rattle.grammar.specs.Sections.{blanks, header_in, third_begins, third_in};
ghost use Rattle.grammar.specs.Sections.{is_this, line_in, word_in};

use faults::TextFault;
use lexer::look::{look, same_word};
use lexer::token::{Lexeme, Token};

/// Whether a token is this word.
fn is_this(text: &[u8], word: &[u8], seen: Lexeme) -> bool
    ensures { result ≡ is_this text.now word.now seen }
{
    seen.token == Token::Word && same_word(text, seen.from, seen.next, word)
}

#[tactic(auto, unfolding(grammar::specs::Sections::word_in))]
fn expect_word(text: &[u8], word: &[u8], at: usize) -> Result<usize, TextFault>
    ensures { result ≡ word_in text.now word.now at }
{
    let seen = look(text, at);
    seen.expect(is_this(text, word, seen))
}

#[tactic(auto, unfolding(grammar::specs::Sections::line_in))]
pub(crate) fn expect_line(text: &[u8], at: usize) -> Result<usize, TextFault>
    ensures { result ≡ line_in text.now at }
{
    let seen = look(text, at);
    seen.expect(seen.token.is_line())
}

/// Past blank lines.
pub(crate) fn skip_lines(text: &[u8], at: usize) -> usize
    ensures { result ≡ blanks text.now at }
{
    let mut next = at;
    'lines: loop {
        let seen = look(text, next);
        if !seen.token.is_line() {
            return next;
        }
        next = seen.next;
    }
}

/// A header of two words on a line of its own.
pub(crate) fn header(
    text: &[u8],
    first: &[u8],
    second: &[u8],
    at: usize,
) -> Result<usize, TextFault>
    ensures { result ≡ header_in text.now first.now second.now at }
{
    let behind = expect_word(text, first, skip_lines(text, at))?;
    let end = expect_word(text, second, behind)?;
    expect_line(text, end)
}

/// Whether the third section begins here.
#[tactic(auto, unfolding(grammar::specs::Sections::third_begins))]
pub(crate) fn third_begins(text: &[u8], at: usize) -> bool
    ensures { result ≡ third_begins text.now at }
{
    let first = look(text, at);
    let second = look(text, first.next);
    is_this(text, b"Environment", first) && is_this(text, b"Global", second)
}

/// The words of the third section's header.
fn third_words(text: &[u8], at: usize) -> Result<usize, TextFault>
    ensures { result ≡ then_ok (word_in text.now (codes "Environment") at) (λ a.
        then_ok (word_in text.now (codes "Global") a) (λ b. word_in text.now (codes "Constraints") b)) }
{
    let first = expect_word(text, b"Environment", at)?;
    let second = expect_word(text, b"Global", first)?;
    expect_word(text, b"Constraints", second)
}

/// The third section up to the end of the text. The last line's end may be missing.
#[tactic(auto, unfolding(grammar::specs::Sections::true_in, grammar::specs::Sections::last_in, grammar::specs::Sections::end_in))]
pub(crate) fn third_section(text: &[u8], at: usize) -> Result<usize, TextFault>
    ensures { result ≡ third_in text.now at }
{
    let words = third_words(text, at)?;
    let line = expect_line(text, words)?;
    let truth = look(text, skip_lines(text, line));
    let behind = look(text, truth.expect(truth.token == Token::Constant(true))?);
    let end = behind.expect(behind.token.is_line() || behind.token.is_end())?;
    let last = look(text, skip_lines(text, end));
    last.expect(last.token.is_end())
}

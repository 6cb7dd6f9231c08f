//! The bounds of temporal operators: `[n]` behind X, `[n,m]` behind G and F.
ghost use Rattle.std.specs.Prelude.{◌≡◌};
ghost use Rattle.std.specs.Result.{IfOk};
ghost use Rattle.lexer.specs.Bounds.{sign_in, number_in, bound_after, bound_in, range_from, range_in, GoodBound, GoodRange};

use super::look::look;
use super::token::Symbol;
use faults::{Reason, TextFault};

/// A number that was read, and where the text goes on behind it.
/// It is no instance of a generic pair of a value and a place: no function takes all such pairs, and one name for every value says less.
#[derive(Clone, Copy, PartialEq, Eq, Debug)]
pub struct Bound {
    pub value: u16,
    pub next: usize,
}

/// Two numbers that were read, and where the text goes on behind them.
#[derive(Clone, Copy, PartialEq, Eq, Debug)]
pub struct Range {
    pub low: u16,
    pub high: u16,
    pub next: usize,
}

/// Where the text goes on behind a symbol that has to stand here.
#[tactic(auto, unfolding(crate::specs::Bounds::sign_in))]
fn read_symbol(text: &[u8], at: usize, want: Symbol) -> Result<usize, TextFault>
    ensures { result ≡ sign_in text.now want at }
{
    let seen = look(text, at);
    seen.expect(seen.token.is_symbol(want))
}

/// A number from `least` to 4,095 that has to stand here.
#[tactic(auto, unfolding(crate::specs::Bounds::number_in))]
fn read_number(text: &[u8], at: usize, least: u16) -> Result<Bound, TextFault>
    ensures { result ≡ number_in text.now least at }
{
    let seen = look(text, at);
    let value = seen.token.number().ok_or(seen.misplaced())?;
    if !(least..=4095).contains(&value) {
        return Err(seen.fault(Reason::Bounds));
    }
    Ok(Bound {
        value,
        next: seen.next,
    })
}

/// The number and the bracket that close a bound.
fn bound_after(text: &[u8], begin: usize) -> Result<Bound, TextFault>
    ensures { result ≡ bound_after text.now begin }
{
    let number = read_number(text, begin, 1)?;
    let next = read_symbol(text, number.next, Symbol::Right)?;
    Ok(Bound {
        value: number.value,
        next,
    })
}

/// The bound behind X, which is 1 where no bracket follows.
#[tactic(auto, unfolding(crate::specs::Bounds::bound_in))]
pub fn read_bound(text: &[u8], at: usize) -> Result<Bound, TextFault>
    ensures value { result ≡ bound_in text.now at }
    ensures bound { IfOk result (GoodBound text.now at) }
{
    let seen = look(text, at);
    if seen.token.is_symbol(Symbol::Left) {
        bound_after(text, seen.next)
    } else {
        Ok(Bound { value: 1, next: at })
    }
}

/// A range by its parts.
fn bracketed(text: &[u8], at: usize) -> Result<Range, TextFault>
    ensures { result ≡ range_from text.now at }
{
    let begin = read_symbol(text, at, Symbol::Left)?;
    let low = read_number(text, begin, 0)?;
    let comma = read_symbol(text, low.next, Symbol::Comma)?;
    let high = read_number(text, comma, low.value)?;
    let next = read_symbol(text, high.next, Symbol::Right)?;
    Ok(Range {
        low: low.value,
        high: high.value,
        next,
    })
}

/// The bounds behind G or F.
#[tactic(auto, unfolding(crate::specs::Bounds::range_in))]
pub fn read_range(text: &[u8], at: usize) -> Result<Range, TextFault>
    ensures value { result ≡ range_in text.now at }
    ensures bound { IfOk result (GoodRange text.now at) }
{
    bracketed(text, at)
}

#[cfg(test)]
mod tests {
    use super::super::look::same_word;
    use super::super::token::{Operator, Token};
    use super::*;

    #[test]
    fn tokens_of_a_formula(rt: HostRuntime) {
        let text = b"  G[0,12] True <-> q_1";
        let always = look(text, 0);
        assert_eq!(rt; always.token, Token::Temporal(Operator::Always));
        assert_eq!(rt; always.from, 2);
        let both = look(text, 14);
        assert_eq!(rt; both.token, Token::Symbol(Symbol::Equivalent));
        assert_eq!(rt; both.next, 18);
        let name = look(text, both.next);
        assert!(rt; same_word(text, name.from, name.next, b"q_1"));
        assert!(rt; look(text, 99).token.is_end());
    }

    #[test]
    fn bounds_of_operators(rt: HostRuntime) {
        assert_eq!(rt;
            read_range(b"[0,12]", 0),
            Ok(Range {
                low: 0,
                high: 12,
                next: 6,
            })
        );
        assert_eq!(rt;
            read_range(b"[5,4]", 0),
            Err(TextFault {
                reason: Reason::Bounds,
                place: 3,
            })
        );
        assert_eq!(rt; read_bound(b" q", 0), Ok(Bound { value: 1, next: 0 }));
        assert_eq!(rt;
            read_bound(b"[4096]", 0),
            Err(TextFault {
                reason: Reason::Bounds,
                place: 1,
            })
        );
    }
}

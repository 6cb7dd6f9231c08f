//! The shapes that the lines share.
ghost use Rattle.std.specs.Prelude.{◌≡◌, ◌≤◌, ◌++◌, length, codes, decimal};

use lines::Line;

/// Two numbers with a sign between them.
pub(crate) fn of_pair(first: u16, sign: &[u8], second: u16) -> Line
    requires { length sign.now ≤ 10 }
    ensures text { result ≡ decimal first ++ sign.now ++ decimal second }
    ensures short { length result ≤ 20 }
{
    Line::new()
        .with_number(first as usize)
        .with_bytes(sign)
        .with_number(second as usize)
}

/// An operator with two bounds, and the number of its part.
pub(crate) fn of_bounds(operator: &[u8], n: u16, m: u16, part: u16) -> Line
    requires { length operator.now ≤ 2 }
    ensures text { result ≡ operator.now ++ decimal n ++ codes "," ++ decimal m ++ codes "] " ++ decimal part }
    ensures short { length result ≤ 20 }
{
    Line::new()
        .with_bytes(operator)
        .with_number(n as usize)
        .with_bytes(b",")
        .with_number(m as usize)
        .with_bytes(b"] ")
        .with_number(part as usize)
}

/// One line of a list: what it lists, the number, and the text.
pub(crate) fn of_item(kind: &[u8], number: usize, text: &[u8]) -> Line
    requires { (length kind.now ≤ 12) × (length text.now ≤ 20) }
    ensures text { result ≡ kind.now ++ decimal number ++ codes " " ++ text.now }
    ensures short { length result ≤ 64 }
{
    Line::new()
        .with_bytes(kind)
        .with_number(number)
        .with_bytes(b" ")
        .with_bytes(text)
}

/// A word and a number.
pub(crate) fn of_number(kind: &[u8], number: usize) -> Line
    requires { length kind.now ≤ 12 }
    ensures text { result ≡ kind.now ++ decimal number }
    ensures short { length result ≤ 64 }
{
    Line::new().with_bytes(kind).with_number(number)
}

//! A formula as text.
ghost use Rattle.std.specs.Prelude.{◌≡◌, ◌≤◌, ◌++◌, length};
ghost use Rattle.rules.specs.Shown.{view};
ghost use Rattle.explanation.specs.Explanation.{formula_text, variable_at, variable_text};

use super::pieces::{of_bounds, of_pair};
use formulas::Formula;
use lines::Line;
use names::Name;
use rules::specification::Specification;

/// The name of a variable.
fn variable(specification: &Specification, v: u8) -> Option<Name>
    ensures { result ≡ variable_at (view specification.now).names v }
{
    if v < 16 {
        specification.environment(v as usize)
    } else {
        specification.system(v as usize - 16)
    }
}

/// A variable's word after a sign; every variable of a specification has one.
fn literal(specification: &Specification, sign: &[u8], v: u8) -> Line
    requires { length sign.now ≤ 5 }
    ensures text { result ≡ sign.now ++ variable_text (view specification.now).names v }
    ensures short { length result ≤ 20 }
{
    let signed = Line::new().with_bytes(sign);
    match variable(specification, v) {
        Some(name) => signed.with_bytes(name.word()),
        None => signed,
    }
}

/// A formula, with its parts by their numbers and its variable by name.
pub(crate) fn formula_text(specification: &Specification, formula: Formula) -> Line
    ensures text { result ≡ formula_text (view specification.now).names formula }
    ensures short { length result ≤ 20 }
{
    match formula {
        Formula::False => Line::new().with_bytes(b"False"),
        Formula::True => Line::new().with_bytes(b"True"),
        Formula::Variable(v) => literal(specification, b"", v),
        Formula::Negated(v) => literal(specification, b"-", v),
        Formula::And(a, b) => of_pair(a, b" & ", b),
        Formula::Or(a, b) => of_pair(a, b" | ", b),
        Formula::Next(n, a) => Line::new()
            .with_bytes(b"X[")
            .with_number(n as usize)
            .with_bytes(b"] ")
            .with_number(a as usize),
        Formula::Always(n, m, a) => of_bounds(b"G[", n, m, a),
        Formula::Eventually(n, m, a) => of_bounds(b"F[", n, m, a),
    }
}

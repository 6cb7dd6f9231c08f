//! The lines of each list of a specification.
ghost use Rattle.std.specs.Prelude.{◌≡◌, ◌≤◌, length, IfSome};
ghost use Rattle.std.specs.List.{slice_get};
ghost use Rattle.rules.specs.Shown.{view};
ghost use Rattle.explanation.specs.Explanation.{environment_lines, formula_lines, root_lines, system_lines};

use super::formula::formula_text;
use super::pieces::{of_item, of_number};
use lines::Line;
use rules::specification::Specification;

/// The line of an environment variable.
pub(crate) fn environment_at(specification: &Specification, i: usize) -> Option<Line>
    ensures text { result ≡ slice_get (environment_lines (view specification.now)) i }
    ensures short { IfSome result (λ l. length l ≤ 64) }
{
    specification
        .environment(i)
        .map(|name| of_item(b"environment ", i, name.word()))
}

/// The line of a system variable. It differs from the above in a word and a method; a closure for each would be no shorter.
pub(crate) fn system_at(specification: &Specification, i: usize) -> Option<Line>
    ensures text { result ≡ slice_get (system_lines (view specification.now)) i }
    ensures short { IfSome result (λ l. length l ≤ 64) }
{
    specification
        .system(i)
        .map(|name| of_item(b"system ", i, name.word()))
}

/// The line of a formula.
pub(crate) fn formula_at(specification: &Specification, k: usize) -> Option<Line>
    ensures text { result ≡ slice_get (formula_lines (view specification.now)) k }
    ensures short { IfSome result (λ l. length l ≤ 64) }
{
    specification.formula(k).map(|formula| of_item(
        b"formula ",
        k,
        formula_text(specification, formula).as_bytes(),
    ))
}

/// The last two lines: the initial formula, then the safety formula.
pub(crate) fn root_at(specification: &Specification, n: usize) -> Option<Line>
    ensures text { result ≡ slice_get (root_lines (view specification.now)) n }
    ensures short { IfSome result (λ l. length l ≤ 64) }
{
    match n {
        0 => Some(of_number(b"initial ", specification.initial())),
        1 => Some(of_number(b"safety ", specification.safety())),
        _ => None,
    }
}

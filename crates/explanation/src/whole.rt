//! All lines in order.
ghost use Rattle.std.specs.Prelude.{◌≡◌, ◌≤◌, length, IfSome};
ghost use Rattle.std.specs.List.{slice_get};
ghost use Rattle.rules.specs.Shown.{view, view_result};
ghost use Rattle.explanation.specs.Explanation.{explanation, refused_line, specification_lines};

use super::lists::{environment_at, formula_at, root_at, system_at};
use faults::Fault;
use lines::Line;
use rules::specification::Specification;

/// A line of how a specification was read, or none past the last.
fn specification_line(specification: &Specification, n: usize) -> Option<Line>
    ensures text { result ≡ slice_get (specification_lines (view specification.now)) n }
    ensures short { IfSome result (λ l. length l ≤ 64) }
{
    let Some(after_environment) = n.checked_sub(specification.environment_count()) else {
        return environment_at(specification, n);
    };
    let Some(after_system) = after_environment.checked_sub(specification.system_count()) else {
        return system_at(specification, after_environment);
    };
    let Some(after_formulas) = after_system.checked_sub(specification.formula_count()) else {
        return formula_at(specification, after_system);
    };
    root_at(specification, after_formulas)
}

/// The line of a refused text.
fn refused_line(fault: Fault) -> Line
    ensures text { result ≡ refused_line fault }
    ensures short { length result ≤ 64 }
{
    Line::new()
        .with_bytes(b"refused ")
        .with_number(fault.number() as usize)
        .with_bytes(b" byte ")
        .with_number(fault.place())
}

/// A line of the explanation of how a text was read, or none past the last.
pub fn line(reading: &Result<Specification, Fault>, n: usize) -> Option<Line>
    ensures text { result ≡ slice_get (explanation (view_result reading.now)) n }
    ensures short { IfSome result (λ l. length l ≤ 64) }
{
    match reading {
        Ok(specification) => specification_line(specification, n),
        Err(fault) if n == 0 => Some(refused_line(*fault)),
        Err(_) => None,
    }
}

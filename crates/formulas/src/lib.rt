//! The entries of a table of formulas, parts before wholes.
#![tactic(auto)]

ghost use Rattle.std.specs.Prelude.{◌≡◌};
ghost use Rattle.formulas.specs.Entries.{entry_code, mixed};

pub mod junction;

use index::Key;

/// An entry names its parts by the numbers of earlier entries.
/// Variables 0 to 15 are the environment's, 16 to 31 the system's.
#[derive(Clone, Copy, PartialEq, Eq)]
pub enum Formula {
    False,
    True,
    Variable(u8),
    Negated(u8),
    And(u16, u16),
    Or(u16, u16),
    /// X[n] of a part
    Next(u16, u16),
    /// G[n,m] of a part
    Always(u16, u16, u16),
    /// F[n,m] of a part
    Eventually(u16, u16, u16),
}

/// A code of an operator's number and of what an entry holds, in order, 0 for what it lacks.
fn mixed(operator: u8, a: u16, b: u16, c: u16) -> u32
    ensures { result ≡ mixed operator a b c }
{
    u32::from(operator) + 11 * u32::from(a) + 353 * u32::from(b) + 10007 * u32::from(c)
}

/// Entries are keys of an index: the code tells them apart by operator, variable, bounds and parts.
impl Key for Formula {
    ghost coded = { entry_code };

    fn code(&self) -> u32 {
        match *self {
            Formula::False => mixed(0, 0, 0, 0),
            Formula::True => mixed(1, 0, 0, 0),
            Formula::Variable(v) => mixed(2, u16::from(v), 0, 0),
            Formula::Negated(v) => mixed(3, u16::from(v), 0, 0),
            Formula::And(a, b) => mixed(4, a, b, 0),
            Formula::Or(a, b) => mixed(5, a, b, 0),
            Formula::Next(n, a) => mixed(6, n, a, 0),
            Formula::Always(n, m, a) => mixed(7, n, m, a),
            Formula::Eventually(n, m, a) => mixed(8, n, m, a),
        }
    }

    fn same(&self, other: &Formula) -> bool {
        self == other
    }
}

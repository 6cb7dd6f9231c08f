//! The numbers that stand for the kinds of formulas.
ghost use Rattle.std.specs.Prelude.{◌≡◌};
ghost use Rattle.records.specs.Kinds.{NamedBack, named, recorded};

use crate::FormulaRecord;
use formulas::Formula;

/// A number that stands for no kind of formula.
#[derive(Clone, Copy, PartialEq, Eq, Debug)]
pub struct UnknownKind(pub u8);

impl From<Formula> for FormulaRecord {
    ghost from_gives = { λ f r. r ≡ recorded f };

    fn from(f: Formula) -> FormulaRecord {
        let (kind, variable, a, b, n, m) = match f {
            Formula::False => (0, 0, 0, 0, 0, 0),
            Formula::True => (1, 0, 0, 0, 0, 0),
            Formula::Variable(v) => (2, v, 0, 0, 0, 0),
            Formula::Negated(v) => (3, v, 0, 0, 0, 0),
            Formula::And(a, b) => (4, 0, a, b, 0, 0),
            Formula::Or(a, b) => (5, 0, a, b, 0, 0),
            Formula::Next(n, a) => (6, 0, a, 0, n, 0),
            Formula::Always(n, m, a) => (7, 0, a, 0, n, m),
            Formula::Eventually(n, m, a) => (8, 0, a, 0, n, m),
        };
        FormulaRecord {
            kind,
            variable,
            a,
            b,
            n,
            m,
        }
    }
}

impl TryFrom<FormulaRecord> for Formula {
    type Error = UnknownKind;

    ghost try_from_gives = { λ r f. f ≡ named r };

    /// Fields that the kind does not use are not looked at.
    fn try_from(r: FormulaRecord) -> Result<Formula, UnknownKind> {
        match r.kind {
            0 => Ok(Formula::False),
            1 => Ok(Formula::True),
            2 => Ok(Formula::Variable(r.variable)),
            3 => Ok(Formula::Negated(r.variable)),
            4 => Ok(Formula::And(r.a, r.b)),
            5 => Ok(Formula::Or(r.a, r.b)),
            6 => Ok(Formula::Next(r.n, r.a)),
            7 => Ok(Formula::Always(r.n, r.m, r.a)),
            8 => Ok(Formula::Eventually(r.n, r.m, r.a)),
            unknown => Err(UnknownKind(unknown)),
        }
    }
}

/// The law that the record of a formula names the formula.
pub fn records_name_their_formulas()
    ensures { NamedBack }
{}

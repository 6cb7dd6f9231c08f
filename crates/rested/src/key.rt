//! Formula records as keys of an index.
ghost use Rattle.std.specs.Prelude.{◌≡◌};
ghost use Rattle.rested.specs.Codes.{formula_code};

use index::Key;
use records::FormulaRecord;

/// A formula record as a key.
#[derive(Clone, Copy, PartialEq, Eq)]
pub struct FormulaKey {
    pub formula: FormulaRecord,
}

fn code_of(f: &FormulaRecord) -> u32
    ensures { result ≡ formula_code f.now }
{
    let numbers = f.a as u32 * 1031 + f.b as u32 * 40503 + f.n as u32 * 10007 + f.m as u32 * 5003;
    f.kind as u32 * 2053 + f.variable as u32 * 8009 + numbers
}

/// The code spreads over all fields.
impl Key for FormulaKey {
    ghost coded = { λ k. formula_code k.formula };

    fn code(&self) -> u32 {
        code_of(&self.formula)
    }

    fn same(&self, other: &FormulaKey) -> bool {
        self == other
    }
}

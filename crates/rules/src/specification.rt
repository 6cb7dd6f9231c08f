//! The specification that a text reads as.
ghost use Rattle.std.specs.Prelude.{◌≡◌, ℕ, true, List, take, Ok};
ghost use Rattle.parser.specs.Naming.{names_of};
ghost use Rattle.rules.specs.Form.{in_form};
ghost use Rattle.rules.specs.Read.{reads};
ghost use Rattle.rules.specs.Fields.{view_from};

use normal::table::Formulas;
use parser::table::Names;

/// The names of both kinds of variables, the formulas with the numbers of the initial and the safety formula, and the number of the
/// third part. Bounds are in order and variables in range (`form`; that parts come before wholes is in the type of the formulas), and some text
/// reads as exactly this (`read`): there are no specifications but those read from a text.
#[derive(Clone, Copy)]
pub struct Specification {
    pub(crate) names: Names,
    pub(crate) formulas: Formulas,
    pub(crate) third: u16,
    ghost form: { in_form (names_of names) (take formulas.count formulas.table) ≡ true },
    ghost read: { ∥ ((text : List ℕ) × (reads text ≡ Ok (view_from names formulas third))) ∥₁ },
}

//! The form of single entries.
ghost use Rattle.std.specs.Prelude.{◌≡◌, ℕ, ◌^◌, Bool, Some, nat_lt, refl};
ghost use Rattle.std.specs.List.{slice_get};
ghost use Rattle.temporal.specs.Game.{Spec};
ghost use Rattle.faults.specs.declared.card.CardList.{CardList as ListName};
ghost use Rattle.faults.specs.declared.card.CardList.TheVariants.{Formulas, Labels, Nodes, Moves};
ghost use Rattle.tableau.specs.Form.{variable_formed, part_formed, constant_formed, literal_formed, pair_formed, next_formed, range_formed};
ghost use Rattle.tableau.specs.Form.{formula_formed, label_formed, node_formed, move_formed};
ghost use Rattle.tableau.specs.Conditions.{Condition, formula_form, label_form, node_form, move_form, kept, fault};
ghost use Rattle.records.specs.Raw.{RawCard, entry_of, node_of, move_of, model};
ghost use Rattle.judged.specs.Judged.{fault_of};
ghost use Rattle.formed.specs.Conditions.{unformed_at};
ghost use Rattle.formed.specs.Sizes.{HasSizes, sized, kind_formed, place_formed};
ghost use Rattle.formed.specs.declared.form.Sizes.{Sizes as EntrySizes};
ghost use Rattle.formed.specs.Tested.{formula_tested, label_tested, node_tested, move_tested};

use card::entry::Entry;
use card::variables::Variables;
use faults::card::CardList;
use formulas::Formula;
use records::{FormulaRecord, MoveRecord, NodeRecord};

/// What the form of entries depends on: the variables of a specification, and the lengths of a card's lists.
#[derive(Clone, Copy)]
pub(crate) struct Sizes {
    pub(crate) variables: Variables,
    pub(crate) formulas: usize,
    pub(crate) labels: usize,
    pub(crate) moves: usize,
}

/// An entry with a test of its form.
pub(crate) trait Formed: Entry {
    /// Whether entry i of its list is of good form.
    ghost formed: { EntrySizes → ℕ → Self → Bool };

    /// The list, and the condition on its entry i.
    ghost list: { ListName };

    ghost condition: { ℕ → Condition };

    /// The entry's list.
    fn list() -> CardList
        ensures { result ≡ list };

    /// Whether this is of good form as entry i of its list.
    fn is_formed(self, i: usize, sizes: Sizes) -> bool
        ensures { result ≡ formed sizes i self };

    /// The test is that of the condition, which has the fault of an unformed entry.
    ghost tested: { (spec : Spec) (c : RawCard) (sizes : EntrySizes) → HasSizes spec c sizes → (i : ℕ) (x : Self) → Some x ≡ slice_get (Self.listed c) i
        → kept spec (model c) (condition i) ≡ formed sizes i x };

    ghost refused: { (i : ℕ) → fault_of (unformed_at list i) ≡ fault (condition i) };
}

/// Variables 0 to 15 are the environment's, 16 to 31 the system's, as far as the specification has them.
fn variable_formed(variable: u8, variables: Variables) -> bool
    ensures { result ≡ variable_formed (sized variables) variable }
{
    if variable < 16 {
        (variable as usize) < variables.environment
    } else {
        (variable as usize - 16) < variables.system
    }
}

/// A part of entry i is no constant and stands before it.
fn part_formed(i: usize, part: u16) -> bool
    ensures { result ≡ part_formed i part }
{
    2 <= part && (part as usize) < i
}

fn constant_formed(f: FormulaRecord) -> bool
    ensures { result ≡ constant_formed (entry_of f) }
{
    f.variable == 0 && f.a == 0 && f.b == 0 && f.n == 0 && f.m == 0
}

fn literal_formed(f: FormulaRecord, variables: Variables) -> bool
    ensures { result ≡ literal_formed (sized variables) (entry_of f) }
{
    variable_formed(f.variable, variables) && f.a == 0 && f.b == 0 && f.n == 0 && f.m == 0
}

fn pair_formed(i: usize, f: FormulaRecord) -> bool
    ensures { result ≡ pair_formed i (entry_of f) }
{
    part_formed(i, f.a) && part_formed(i, f.b) && f.variable == 0 && f.n == 0 && f.m == 0
}

fn next_formed(i: usize, f: FormulaRecord) -> bool
    ensures { result ≡ next_formed i (entry_of f) }
{
    1 <= f.n && f.n <= 4095 && part_formed(i, f.a) && f.variable == 0 && f.b == 0 && f.m == 0
}

fn range_formed(i: usize, f: FormulaRecord) -> bool
    ensures { result ≡ range_formed i (entry_of f) }
{
    f.n <= f.m && f.m <= 4095 && part_formed(i, f.a) && f.variable == 0 && f.b == 0
}

/// Entry 0 is false and entry 1 is true.
fn place_formed(i: usize, f: FormulaRecord) -> bool
    ensures { result ≡ place_formed i (entry_of f) }
{
    match i {
        0 => matches!(Formula::try_from(f), Ok(Formula::False)),
        1 => matches!(Formula::try_from(f), Ok(Formula::True)),
        _ => true,
    }
}

/// The form of a formula by its kind.
fn kind_formed(i: usize, f: FormulaRecord, variables: Variables) -> bool
    ensures { result ≡ kind_formed (sized variables) i (entry_of f) }
{
    match Formula::try_from(f) {
        Ok(Formula::False | Formula::True) => constant_formed(f),
        Ok(Formula::Variable(_) | Formula::Negated(_)) => literal_formed(f, variables),
        Ok(Formula::And(..) | Formula::Or(..)) => pair_formed(i, f),
        Ok(Formula::Next(..)) => next_formed(i, f),
        Ok(Formula::Always(..) | Formula::Eventually(..)) => range_formed(i, f),
        Err(_) => false,
    }
}

/// Are all bits of the mask those of so many variables?
fn mask_formed(mask: u16, variables: usize) -> bool
    ensures { result ≡ nat_lt mask (2 ^ variables) }
{
    variables >= 16 || mask >> variables == 0
}

/// Its place allows its kind, and the fields are those of the kind.
impl Formed for FormulaRecord {
    ghost formed = { λ sizes i f. formula_formed (sized sizes.variables) i (entry_of f) };

    ghost list = { Formulas };

    ghost condition = { formula_form };

    fn list() -> CardList {
        CardList::Formulas
    }

    fn is_formed(self, i: usize, sizes: Sizes) -> bool {
        place_formed(i, self) && kind_formed(i, self, sizes.variables)
    }

    ghost tested = { formula_tested };

    ghost refused = { λ i. refl };
}

/// A label entry is the number of one of the formulas.
impl Formed for u16 {
    ghost formed = { λ sizes i l. label_formed sizes.formulas l };

    ghost list = { Labels };

    ghost condition = { label_form };

    fn list() -> CardList {
        CardList::Labels
    }

    fn is_formed(self, _i: usize, sizes: Sizes) -> bool {
        (self as usize) < sizes.formulas
    }

    ghost tested = { label_tested };

    ghost refused = { λ i. refl };
}

/// A node's labels and moves lie within their lists, and it has a move.
impl Formed for NodeRecord {
    ghost formed = { λ sizes i x. node_formed sizes.labels sizes.moves (node_of x) };

    ghost list = { Nodes };

    ghost condition = { node_form };

    fn list() -> CardList {
        CardList::Nodes
    }

    fn is_formed(self, _i: usize, sizes: Sizes) -> bool {
        self.first_label as usize + self.label_count as usize <= sizes.labels
            && self.first_move as usize + self.move_count as usize <= sizes.moves
            && 1 <= self.move_count
    }

    ghost tested = { node_tested };

    ghost refused = { λ i. refl };
}

/// Values lie inside masks, masks inside the specification's variables.
impl Formed for MoveRecord {
    ghost formed = { λ sizes i m. move_formed (sized sizes.variables) (move_of m) };

    ghost list = { Moves };

    ghost condition = { move_form };

    fn list() -> CardList {
        CardList::Moves
    }

    fn is_formed(self, _i: usize, sizes: Sizes) -> bool {
        self.env_values & self.env_mask == self.env_values
            && self.sys_values & self.sys_mask == self.sys_values
            && mask_formed(self.env_mask, sizes.variables.environment)
            && mask_formed(self.sys_mask, sizes.variables.system)
    }

    ghost tested = { move_tested };

    ghost refused = { λ i. refl };
}

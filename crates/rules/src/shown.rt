//! What a specification shows: its variables, its formulas, and which of them are the initial and the safety formula.
ghost use Rattle.std.specs.Prelude.{◌≡◌, length};
ghost use Rattle.std.specs.List.{slice_get};
ghost use Rattle.grammar.specs.Numbering.{environment_names, system_names};
ghost use Rattle.rules.specs.Laws.{SoundView};
ghost use Rattle.rules.specs.Shown.{view};

use super::specification::Specification;
use formulas::Formula;
use names::Name;

impl Specification {
    /// The names of all variables, in order of first appearance.
    fn names(&self) -> &[Name]
        ensures { result.now ≡ (view self.now).names }
    {
        &self.names.items[..self.names.count]
    }

    // These four differ by a `!` alone: an iterator over the names of one kind, which they would share, can be no result.
    /// The name of an environment variable.
    pub fn environment(&self, i: usize) -> Option<Name>
        ensures { result ≡ slice_get (environment_names (view self.now).names) i }
    {
        let mut names = self.names().iter().filter(|x| x.is_environment());
        names.nth(i).copied()
    }

    /// The name of a system variable.
    pub fn system(&self, i: usize) -> Option<Name>
        ensures { result ≡ slice_get (system_names (view self.now).names) i }
    {
        let mut names = self.names().iter().filter(|x| !x.is_environment());
        names.nth(i).copied()
    }

    /// How many environment variables there are.
    pub fn environment_count(&self) -> usize
        ensures { result ≡ length (environment_names (view self.now).names) }
    {
        self.names().iter().filter(|x| x.is_environment()).count()
    }

    /// How many system variables there are.
    pub fn system_count(&self) -> usize
        ensures { result ≡ length (system_names (view self.now).names) }
    {
        self.names().iter().filter(|x| !x.is_environment()).count()
    }

    /// All formulas, parts before wholes; a formula's number is its place.
    pub fn formulas(&self) -> &[Formula]
        ensures { result.now ≡ (view self.now).formulas }
    {
        &self.formulas.table[..self.formulas.count]
    }

    /// A formula by its number.
    pub fn formula(&self, k: usize) -> Option<Formula>
        ensures { result ≡ slice_get (view self.now).formulas k }
    {
        self.formulas().get(k).copied()
    }

    /// How many formulas there are.
    pub fn formula_count(&self) -> usize
        ensures { result ≡ length (view self.now).formulas }
    {
        self.formulas().len()
    }

    /// The number of the initial formula.
    pub fn initial(&self) -> usize
        ensures { result ≡ (view self.now).initial }
    {
        self.formulas.initial as usize
    }

    /// The number of the safety formula.
    pub fn safety(&self) -> usize
        ensures { result ≡ (view self.now).safety }
    {
        self.formulas.safety as usize
    }

    /// The number of the third part.
    pub fn third(&self) -> usize
        ensures { result ≡ (view self.now).third }
    {
        self.third as usize
    }

    /// The law that every specification states a well-formed game, with its formulas listed exactly, parts before wholes.
    pub fn states_a_game(&self)
        ensures { SoundView (view self.now) }
    {}
}

//! Conjunction and disjunction, and both over a range of steps.
ghost use Rattle.std.specs.Prelude.{◌≡◌};
ghost use Rattle.formulas.specs.Junctions.{absorbing_of, entry_of_both, entry_over, neutral_of, under};

use crate::Formula;

/// Conjunction, or disjunction. Over a range of steps the first is a G, the second an F.
#[derive(Clone, Copy, PartialEq, Eq, Debug)]
pub enum Junction {
    And,
    Or,
}

// Each of these is a table of two lines; one function for all would be told both lines at each call.
impl Junction {
    /// The junction itself, or where the sign is `false` the one that its negation has.
    pub fn under(self, sign: bool) -> Junction
        ensures { result ≡ under self sign }
    {
        match (self, sign) {
            (Junction::And, true) | (Junction::Or, false) => Junction::And,
            (Junction::Or, true) | (Junction::And, false) => Junction::Or,
        }
    }

    /// The entry that decides alone: false (entry 0) in a conjunction, true (entry 1) in a disjunction.
    pub fn absorbing(self) -> u16
        ensures { result ≡ absorbing_of self }
    {
        match self {
            Junction::And => 0,
            Junction::Or => 1,
        }
    }

    /// The entry that leaves the other part: true in a conjunction, false in a disjunction.
    pub fn neutral(self) -> u16
        ensures { result ≡ neutral_of self }
    {
        self.under(false).absorbing()
    }

    /// The conjunction or disjunction of entries a and b.
    pub fn of_both(self, a: u16, b: u16) -> Formula
        ensures { result ≡ entry_of_both self a b }
    {
        match self {
            Junction::And => Formula::And(a, b),
            Junction::Or => Formula::Or(a, b),
        }
    }

    /// G[n,m] or F[n,m] of entry a.
    pub fn over(self, n: u16, m: u16, a: u16) -> Formula
        ensures { result ≡ entry_over self n m a }
    {
        match self {
            Junction::And => Formula::Always(n, m, a),
            Junction::Or => Formula::Eventually(n, m, a),
        }
    }
}

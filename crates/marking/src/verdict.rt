//! What an accepted card shows.
ghost use Rattle.std.specs.Prelude.{◌≡◌};
ghost use Rattle.tableau.specs.Card.{kind_of};
ghost use Rattle.tableau.specs.Judge.{verdict_of, depth_of};
ghost use Rattle.records.specs.Raw.{model};
ghost use Rattle.marking.specs.Verdicts.{DepthKnown, marked_as, verdict_number};

use card::entries::{Kind, kind_of};
use card::source::CardSource;
use depth::depth;

/// Whether the conditions can be kept.
#[derive(Clone, Copy, PartialEq, Eq, Debug)]
pub enum Verdict {
    Realizable = 1,
    Unrealizable = 2,
}

/// The verdict of an accepted card, and the card's depth: at most so many turns has a play along a closed card; that of an open card is 0.
#[derive(Clone, Copy, PartialEq, Eq, Debug)]
pub struct Marked {
    pub verdict: Verdict,
    pub depth: usize,
}

impl Verdict {
    /// The number of the verdict.
    pub fn number(self) -> u8
        ensures { result ≡ verdict_number self }
    {
        self as u8
    }
}

fn with_depth(verdict: Verdict, depth: usize) -> Marked
    ensures { result ≡ record { verdict = verdict; depth = depth } }
{
    Marked { verdict, depth }
}

/// The verdict and the depth of an accepted card.
pub(crate) fn verdict_of<S: CardSource>(source: &S) -> Marked
    ensures { DepthKnown (S.card source.now) → marked_as result ≡ (verdict_of (kind_of (model (S.card source.now))), depth_of (kind_of (model (S.card source.now))) (model (S.card source.now))) }
{
    match kind_of(source) {
        Kind::Open => with_depth(Verdict::Realizable, 0),
        Kind::Closed => with_depth(Verdict::Unrealizable, depth(source)),
    }
}

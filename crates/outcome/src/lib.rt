//! What marking a text and a card gives, and the line that shows it.
#![tactic(auto)]

ghost use Rattle.std.specs.Prelude.{◌≡◌};
ghost use Rattle.outcome.specs.Refusals.{text_refusal, card_refusal};

use faults::Fault;
use faults::card::CardFault;

mod shown;

pub use shown::line;

/// The verdict on an accepted card with its counts, or why the text or the card is refused.
pub type Outcome = Result<Accepted, Refused>;

/// The verdict on an accepted card with its counts.
#[derive(Clone, Copy, PartialEq, Eq, Debug)]
pub enum Accepted {
    /// An open card.
    Realizable { nodes: u16, moves: u16 },
    /// A closed card.
    Unrealizable { nodes: u16, moves: u16, depth: u16 },
}

// By numbers, and not by the faults themselves: each number has its line, and a card's are those of the judge, so that marking names its outcome itself.
/// Why the text or the card is refused.
#[derive(Clone, Copy, PartialEq, Eq, Debug)]
pub enum Refused {
    /// The refusal's number, and the byte of the text where it stands.
    Text { number: u8, byte: usize },
    /// The refusal's number, the number of the card's list, and the place in that list.
    Card { number: u8, list: u8, place: usize },
}

/// A lent buffer that is too short is shown as a byte too: the buffer's number.
impl From<Fault> for Refused {
    ghost from_gives = { λ f r. r ≡ text_refusal f };

    fn from(fault: Fault) -> Refused {
        Refused::Text {
            number: fault.number(),
            byte: fault.place(),
        }
    }
}

/// A lent buffer that is too short is shown as a place too: the buffer's number.
impl From<CardFault> for Refused {
    ghost from_gives = { λ f r. r ≡ card_refusal f };

    fn from(fault: CardFault) -> Refused {
        Refused::Card {
            number: fault.number(),
            list: fault.list(),
            place: fault.place(),
        }
    }
}

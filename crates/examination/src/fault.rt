//! What a text and a card may be refused for.
ghost use Rattle.std.specs.Prelude.{◌≡◌};
ghost use Rattle.examination.specs.declared.fault.MarkFault.TheVariants.{Card};
ghost use Rattle.examination.specs.Faults.{from_text, mark_fault_number, mark_fault_layer, mark_fault_list, mark_fault_place};

use faults::card::CardFault;
use faults::{Fault, Layer, TextFault};

// It is not the `Refused` of an outcome, where a buffer that is too short for reading a text is the text's.
/// The fault of the text or of the card, whole; a lent buffer that is too short is the card's.
#[derive(Clone, Copy, PartialEq, Eq, Debug)]
pub enum MarkFault {
    Text(TextFault),
    Card(CardFault),
}

impl MarkFault {
    /// The number under which the refusal is listed.
    pub fn number(self) -> u8
        ensures { result ≡ mark_fault_number self }
    {
        match self {
            MarkFault::Text(fault) => fault.reason.number(),
            MarkFault::Card(fault) => fault.number(),
        }
    }

    // Like the layer of a `Fault`, over another enum.
    /// The layer that refuses.
    pub fn layer(self) -> Layer
        ensures { result ≡ mark_fault_layer self }
    {
        match self {
            MarkFault::Text(_) => Layer::Text,
            MarkFault::Card(_) => Layer::Card,
        }
    }

    /// The number of the card's list, 0 where no list is to blame.
    pub fn list(self) -> u8
        ensures { result ≡ mark_fault_list self }
    {
        match self {
            MarkFault::Text(_) => 0,
            MarkFault::Card(fault) => fault.list(),
        }
    }

    /// The byte of the text, or the place in the card's list, or the buffer.
    pub fn place(self) -> usize
        ensures { result ≡ mark_fault_place self }
    {
        match self {
            MarkFault::Text(fault) => fault.place,
            MarkFault::Card(fault) => fault.place(),
        }
    }
}

impl From<Fault> for MarkFault {
    ghost from_gives = { λ f r. r ≡ from_text f };

    fn from(fault: Fault) -> MarkFault {
        match fault {
            Fault::Text(text) => MarkFault::Text(text),
            Fault::Short(buffer) => MarkFault::Card(CardFault::Short(buffer)),
        }
    }
}

impl From<CardFault> for MarkFault {
    ghost from_gives = { λ f r. r ≡ Card f };

    fn from(fault: CardFault) -> MarkFault {
        MarkFault::Card(fault)
    }
}

//! What a card is refused for: a reason with a fixed number, and the list and the place in it where it stands.
ghost use Rattle.std.specs.Prelude.{◌≡◌};
ghost use Rattle.faults.specs.declared.card.CardFault.TheVariants.{Short};
ghost use Rattle.faults.specs.Cards.{card_reason_number, card_list_number, card_fault_number, card_fault_list, card_fault_place, card_fault_layer};

use crate::{Buffer, Layer};

/// Why a card is refused, in the order in which a card is judged.
#[derive(Clone, Copy, PartialEq, Eq, Debug)]
pub enum CardReason {
    // the trailer of a file, or a count or the kind of a card
    Count = 8,
    // an entry of bad form
    Entry = 9,
    // a formula that stands twice
    Equal = 10,
    // a formula that has to be listed and is not
    Missing = 11,
    // the label of node 0 and the initial formula
    Root = 12,
    // false in the label of an open card
    Label = 13,
    // the moves of a node do not split the valuations
    Covering = 14,
    // where a move leads
    Target = 15,
    // what a move leaves and the label of its target
    Step = 16,
}

/// The lists of a card, and the trailer of its file.
#[derive(Clone, Copy, PartialEq, Eq, Debug)]
pub enum CardList {
    Formulas = 0,
    Labels = 1,
    Nodes = 2,
    Moves = 3,
    Trailer = 4,
}

/// What a call over a card may be refused for: the card itself, or a lent buffer that is too short.
#[derive(Clone, Copy, PartialEq, Eq, Debug)]
pub enum CardFault {
    Refused {
        reason: CardReason,
        list: CardList,
        place: usize,
    },
    Short(Buffer),
}

impl CardReason {
    pub fn number(self) -> u8
        ensures { result ≡ card_reason_number self }
    {
        self as u8
    }
}

impl CardList {
    pub fn number(self) -> u8
        ensures { result ≡ card_list_number self }
    {
        self as u8
    }
}

impl CardFault {
    /// The number under which the refusal is listed.
    pub fn number(self) -> u8
        ensures { result ≡ card_fault_number self }
    {
        match self {
            CardFault::Refused {
                reason,
                list: _,
                place: _,
            } => reason.number(),
            CardFault::Short(_) => 19,
        }
    }

    /// The number of the list, 0 where no list is to blame.
    pub fn list(self) -> u8
        ensures { result ≡ card_fault_list self }
    {
        match self {
            CardFault::Refused {
                reason: _,
                list,
                place: _,
            } => list.number(),
            CardFault::Short(_) => 0,
        }
    }

    /// The place in the list, or the buffer's number.
    pub fn place(self) -> usize
        ensures { result ≡ card_fault_place self }
    {
        match self {
            CardFault::Refused {
                reason: _,
                list: _,
                place,
            } => place,
            CardFault::Short(buffer) => buffer as usize,
        }
    }

    /// Every such fault is of the card's layer.
    pub fn layer(self) -> Layer
        ensures { result ≡ card_fault_layer self }
    {
        Layer::Card
    }
}

impl From<Buffer> for CardFault {
    ghost from_gives = { λ b r. r ≡ Short b };

    fn from(buffer: Buffer) -> CardFault {
        CardFault::Short(buffer)
    }
}

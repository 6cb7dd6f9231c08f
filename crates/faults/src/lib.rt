//! What a text is refused for: a reason with a fixed number, and the byte where it stands.
#![tactic(auto)]

ghost use Rattle.std.specs.Prelude.{◌≡◌};
ghost use Rattle.faults.specs.declared.Fault.TheVariants.{Text, Short};
ghost use Rattle.faults.specs.Numbers.{reason_number, buffer_number, layer_number, fault_number, fault_layer, fault_place};

pub mod card;

/// Why a text is refused, smallest number first.
#[derive(Clone, Copy, PartialEq, Eq, Debug)]
pub enum Reason {
    TooLong = 1,
    Unknown = 2,
    Misplaced = 3,
    Bounds = 4,
    Variables = 5,
    Nesting = 6,
    Formulas = 7,
}

/// A refused text: the reason, and the byte at which it stands.
#[derive(Clone, Copy, PartialEq, Eq, Debug)]
pub struct TextFault {
    pub reason: Reason,
    pub place: usize,
}

/// Memory that the caller lends.
#[derive(Clone, Copy, PartialEq, Eq, Debug)]
pub enum Buffer {
    Index = 0,
    Rows = 1,
    BookText = 2,
    Output = 3,
}

/// The parts of the work that refuse, each with its own list of reasons.
#[derive(Clone, Copy, PartialEq, Eq, Debug)]
pub enum Layer {
    Text = 1,
    Card = 2,
    Play = 3,
    Book = 4,
}

/// What reading a text may be refused for: the text itself, or a lent buffer that is too short.
#[derive(Clone, Copy, PartialEq, Eq, Debug)]
pub enum Fault {
    Text(TextFault),
    Short(Buffer),
}

impl Reason {
    pub fn number(self) -> u8
        ensures { result ≡ reason_number self }
    {
        self as u8
    }
}

impl Buffer {
    pub fn number(self) -> u8
        ensures { result ≡ buffer_number self }
    {
        self as u8
    }
}

impl Layer {
    pub fn number(self) -> u8
        ensures { result ≡ layer_number self }
    {
        self as u8
    }
}

impl Fault {
    /// The number under which the refusal is listed.
    pub fn number(self) -> u8
        ensures { result ≡ fault_number self }
    {
        match self {
            Fault::Text(fault) => fault.reason as u8,
            Fault::Short(_) => 19,
        }
    }

    /// A short buffer belongs to the card's layer, also where a text is read.
    pub fn layer(self) -> Layer
        ensures { result ≡ fault_layer self }
    {
        match self {
            Fault::Text(_) => Layer::Text,
            Fault::Short(_) => Layer::Card,
        }
    }

    /// The byte of the text, or the buffer's number.
    pub fn place(self) -> usize
        ensures { result ≡ fault_place self }
    {
        match self {
            Fault::Text(fault) => fault.place,
            Fault::Short(buffer) => buffer as usize,
        }
    }
}

impl From<TextFault> for Fault {
    ghost from_gives = { λ f r. r ≡ Text f };

    fn from(fault: TextFault) -> Fault {
        Fault::Text(fault)
    }
}

impl From<Buffer> for Fault {
    ghost from_gives = { λ b r. r ≡ Short b };

    fn from(buffer: Buffer) -> Fault {
        Fault::Short(buffer)
    }
}

// Refusals: each question that a call asks has a number, a layer and a place.
ghost use Rattle.std.specs.Prelude.{◌≡◌, length, IfOk, Some};
ghost use Rattle.wire.specs.Forms.{fitted};
ghost use Rattle.wire.specs.Texts.{refusal_text};
ghost use Rattle.wire.specs.Refusals.{buffer_number, layer_number, number_of, layer_of, place_of};

use std::fmt;

// The lent buffers of a call.
#[derive(Clone, Copy, PartialEq, Eq, Debug)]
pub enum Buffer {
    Request = 1,
    Record = 2,
    Tag = 3,
    Key = 4,
}

impl Buffer {
    pub fn number(self) -> u32
        ensures { result ≡ buffer_number self }
    {
        self as u32
    }

    // Refuses bytes of another length.
    pub fn fits(self, bytes: &[u8], len: usize) -> Result<(), Refusal>
        ensures value { result ≡ fitted len self bytes.now }
        ensures fit { IfOk result (λ _. length bytes.now ≡ len) }
    {
        if bytes.len() == len {
            Ok(())
        } else {
            Err(Refusal::WrongLength { buffer: self })
        }
    }
}

// Where a question is asked.
#[derive(Clone, Copy, PartialEq, Eq, Debug)]
pub enum Layer {
    Record = 1,
    Device = 2,
    Table = 3,
}

impl Layer {
    pub fn number(self) -> u32
        ensures { result ≡ layer_number self }
    {
        self as u32
    }
}

// The question that was answered with no, and what its place needs.
// Of the table's questions that is the sender in take, and the own number in every other call.
#[derive(Clone, Copy, PartialEq, Eq, Debug)]
pub enum Refusal {
    // The group size is not 3, 5 or 7, the number is not below it, or the device was not new.
    NotInGroup { replica: u32 },
    // A buffer has a wrong length.
    WrongLength { buffer: Buffer },
    // A field is bad, which begins at this byte.
    BadForm { byte: u8 },
    // The record and its tag do not pass.
    BadTag { count: u32 },
    // The message was checked at another number or group size.
    CheckedElsewhere { replica: u8 },
    // The message is the replica's own.
    OwnMessage { replica: u8 },
    // The count is below the next one.
    CountPassed { replica: u8 },
    // The count is above the next one.
    CountAhead { replica: u8 },
    // The rule of the message's kind does not hold.
    AgainstRule { replica: u8 },
    // Something that the message builds on is not held.
    NotHeld { replica: u8 },
    // The position is too far beyond what was run.
    TooFar { replica: u8 },
    // The replica does not lead, or has asked for a later view.
    NotPrimary { replica: u8 },
    // The device has made its last count.
    DeviceSpent { made: u32 },
    // Nothing is owed.
    NothingOwed { replica: u8 },
    // The view is not above the asked view and the vouch's view.
    ViewTooLow { replica: u8 },
    // The slip is another replica's, or all counts made were sent.
    WrongSlip { replica: u8 },
    // No quorum backs the next position.
    NotBacked { replica: u8 },
}

impl Refusal {
    // The number of the question. Hosts written in C and reports are told numbers, so it stays one.
    pub fn number(self) -> u32
        ensures { result ≡ number_of self }
    {
        match self {
            Refusal::NotInGroup { .. } => 1,
            Refusal::WrongLength { .. } => 2,
            Refusal::BadForm { .. } => 3,
            Refusal::BadTag { .. } => 4,
            Refusal::CheckedElsewhere { .. } => 5,
            Refusal::OwnMessage { .. } => 6,
            Refusal::CountPassed { .. } => 7,
            Refusal::CountAhead { .. } => 8,
            Refusal::AgainstRule { .. } => 9,
            Refusal::NotHeld { .. } => 10,
            Refusal::TooFar { .. } => 11,
            Refusal::NotPrimary { .. } => 12,
            Refusal::DeviceSpent { .. } => 13,
            Refusal::NothingOwed { .. } => 14,
            Refusal::ViewTooLow { .. } => 15,
            Refusal::WrongSlip { .. } => 16,
            Refusal::NotBacked { .. } => 17,
        }
    }

    pub fn layer(self) -> Layer
        ensures { result ≡ layer_of self }
    {
        match self {
            Refusal::WrongLength { .. } | Refusal::BadForm { .. } => Layer::Record,
            Refusal::BadTag { .. } | Refusal::DeviceSpent { .. } => Layer::Device,
            _ => Layer::Table,
        }
    }

    // One number whatever the question, for the same readers.
    pub fn place(self) -> u32
        ensures { result ≡ place_of self }
    {
        match self {
            Refusal::NotInGroup { replica } => replica,
            Refusal::WrongLength { buffer } => buffer.number(),
            Refusal::BadForm { byte } => u32::from(byte),
            Refusal::BadTag { count } => count,
            Refusal::DeviceSpent { made } => made,
            Refusal::CheckedElsewhere { replica }
            | Refusal::OwnMessage { replica }
            | Refusal::CountPassed { replica }
            | Refusal::CountAhead { replica }
            | Refusal::AgainstRule { replica }
            | Refusal::NotHeld { replica }
            | Refusal::TooFar { replica }
            | Refusal::NotPrimary { replica }
            | Refusal::NothingOwed { replica }
            | Refusal::ViewTooLow { replica }
            | Refusal::WrongSlip { replica }
            | Refusal::NotBacked { replica } => u32::from(replica),
        }
    }
}

impl fmt::Display for Refusal {
    ghost output = { λ refusal. Some (refusal_text refusal) };

    fn fmt<W: fmt::Write>(&self, f: &mut fmt::Formatter<W>) -> fmt::Result {
        let number = self.number();
        let layer = self.layer().number();
        let place = self.place();
        write!(f, "question {number}, layer {layer}, place {place}")
    }
}

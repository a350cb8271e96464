// Why a line is turned away. The numbers stand in specs/Numbers.antt, in one definition.
ghost use Rattle.std.specs.Prelude.{◌≡◌};
ghost use Rattle.terms.specs.Numbers.{number, passed_up};

#[derive(Clone, Copy, Debug, PartialEq, Eq)]
pub enum Refusal {
    NotAFrame = 0x01,
    UnknownKind = 0x02,
    UnusedFieldNotZero = 0x03,
    ValueTooLarge = 0x04,
    IndexTooLarge = 0x05,
    Asleep = 0x06,
    RegisterNotWritable = 0x07,
    PageNotMapped = 0x08,
    PageReadOnly = 0x09,
    SocketUnpowered = 0x0A,
    NoSuchPlace = 0x0B,
    WriteProtected = 0x0C,
    CausePending = 0x0D,
}

impl Refusal {
    // A method and no `From`: its name says what the byte is.
    pub fn number(self) -> u8
        ensures { result ≡ number self }
    {
        self as u8
    }
}

// What a device answers in place of a byte.
#[derive(Clone, Copy, Debug, PartialEq, Eq)]
pub enum Fault {
    NoSuchPlace,
    WriteProtected,
}

impl From<Fault> for Refusal {
    ghost from_gives = { λ f r. r ≡ passed_up f };

    fn from(fault: Fault) -> Refusal {
        match fault {
            Fault::NoSuchPlace => Refusal::NoSuchPlace,
            Fault::WriteProtected => Refusal::WriteProtected,
        }
    }
}

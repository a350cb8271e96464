// What the lines speak of: kinds of line, states, causes, registers and inputs.

// The kind of a line.
#[derive(Clone, Copy, PartialEq, Eq)]
pub enum Kind {
    Reset,
    RegisterWrite,
    RegisterRead,
    PageWrite,
    PageRead,
    CpuWrite,
    CpuRead,
    Tick,
    Activity,
    Ext,
    Ring,
    Alarm,
    Battery,
    Ac,
}

impl TryFrom<u32> for Kind {
    type Error = Refusal;

    fn try_from(number: u32) -> Result<Kind, Refusal> {
        Ok(match number {
            0x00 => Kind::Reset,
            0x01 => Kind::RegisterWrite,
            0x02 => Kind::RegisterRead,
            0x03 => Kind::PageWrite,
            0x04 => Kind::PageRead,
            0x05 => Kind::CpuWrite,
            0x06 => Kind::CpuRead,
            0x10 => Kind::Tick,
            0x11 => Kind::Activity,
            0x12 => Kind::Ext,
            0x13 => Kind::Ring,
            0x14 => Kind::Alarm,
            0x15 => Kind::Battery,
            0x16 => Kind::Ac,
            _ => return Err(Refusal::UnknownKind),
        })
    }
}

// Why a line is refused, in order of rank.
#[derive(Clone, Copy, PartialEq, Eq)]
pub enum Refusal {
    NoFrame = 1,
    UnknownKind = 2,
    UnusedField = 3,
    LargeValue = 4,
    LargeAddress = 5,
    Asleep = 6,
    FixedRegister = 7,
    UnmappedPage = 8,
    ReadOnlyPage = 9,
    NoPower = 10,
    NoPlace = 11,
    WriteProtected = 12,
    CausePending = 13,
}

// The power state.
#[derive(Clone, Copy, PartialEq, Eq)]
pub enum State {
    On,
    Doze,
    Sleep,
    Suspend,
    Off,
}

impl State {
    pub fn is_awake(self) -> bool {
        matches!(self, State::On | State::Doze | State::Sleep)
    }

    // The register that loads the idle counter in this state, if it runs there.
    pub fn load(self) -> Option<Stored> {
        match self {
            State::On => Some(Stored::DozeLoad),
            State::Doze => Some(Stored::SleepLoad),
            State::Sleep => Some(Stored::SuspendLoad),
            State::Suspend | State::Off => None,
        }
    }

    // The register whose bits are the power lines in this state, if any is on there.
    pub fn output_register(self) -> Option<Stored> {
        match self {
            State::On => Some(Stored::OnOutputs),
            State::Doze => Some(Stored::DozeOutputs),
            State::Sleep => Some(Stored::SleepOutputs),
            State::Suspend => Some(Stored::SuspendOutputs),
            State::Off => None,
        }
    }
}

impl TryFrom<u16> for State {
    type Error = Refusal;

    fn try_from(number: u16) -> Result<State, Refusal> {
        match number {
            0 => Ok(State::On),
            1 => Ok(State::Doze),
            2 => Ok(State::Sleep),
            3 => Ok(State::Suspend),
            4 => Ok(State::Off),
            _ => Err(Refusal::LargeValue),
        }
    }
}

// What can ask for attention.
#[derive(Clone, Copy, PartialEq, Eq)]
pub enum Cause {
    Doze,
    Sleep,
    Suspend,
    Ext,
    Battery,
    Violation,
    Activity,
}

impl Cause {
    // The bit of this cause, in the register of causes and in the mask.
    pub fn bit(self) -> u8 {
        match self {
            Cause::Doze => 0x01,
            Cause::Sleep => 0x02,
            Cause::Suspend => 0x04,
            Cause::Ext => 0x08,
            Cause::Battery => 0x10,
            Cause::Violation => 0x20,
            Cause::Activity => 0x40,
        }
    }
}

// What ended Suspend or Off.
#[derive(Clone, Copy, PartialEq, Eq)]
pub enum Waker {
    Reset,
    Press,
    Ring,
    Alarm,
}

// An input whose level is remembered.
#[derive(Clone, Copy, PartialEq, Eq)]
pub enum Input {
    Ext,
    Ring,
    Battery,
    Ac,
}

// A register that holds what was last written to it.
#[derive(Clone, Copy, PartialEq, Eq)]
pub enum Stored {
    DozeLoad,
    SleepLoad,
    SuspendLoad,
    Mask,
    Wake,
    ActivityMask,
    OnOutputs,
    DozeOutputs,
    SleepOutputs,
    SuspendOutputs,
}

impl Stored {
    pub fn after_reset(self) -> u8 {
        match self {
            Stored::DozeLoad | Stored::SleepLoad | Stored::SuspendLoad => 0x00,
            Stored::Mask => 0x3F,
            Stored::Wake => 0x01,
            Stored::ActivityMask => 0x00,
            Stored::OnOutputs | Stored::DozeOutputs => 0x0F,
            Stored::SleepOutputs => 0x0E,
            Stored::SuspendOutputs => 0x02,
        }
    }
}

// A register that a line can name.
#[derive(Clone, Copy)]
pub enum Register {
    State,
    Stored(Stored),
    Causes,
    ViolationLow,
    ViolationMiddle,
    ViolationHigh,
    Outputs,
}

impl TryFrom<u32> for Register {
    type Error = Refusal;

    fn try_from(index: u32) -> Result<Register, Refusal> {
        Ok(match index {
            0x0 => Register::State,
            0x1 => Register::Stored(Stored::DozeLoad),
            0x2 => Register::Stored(Stored::SleepLoad),
            0x3 => Register::Stored(Stored::SuspendLoad),
            0x4 => Register::Stored(Stored::Mask),
            0x5 => Register::Causes,
            0x6 => Register::Stored(Stored::Wake),
            0x7 => Register::Stored(Stored::ActivityMask),
            0x8 => Register::Stored(Stored::OnOutputs),
            0x9 => Register::Stored(Stored::DozeOutputs),
            0xA => Register::Stored(Stored::SleepOutputs),
            0xB => Register::Stored(Stored::SuspendOutputs),
            0xC => Register::ViolationLow,
            0xD => Register::ViolationMiddle,
            0xE => Register::ViolationHigh,
            0xF => Register::Outputs,
            _ => return Err(Refusal::LargeAddress),
        })
    }
}

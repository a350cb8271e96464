// The registers of the power unit, by what they are for.
ghost use Rattle.std.specs.Prelude.{◌≡◌, ◌<◌, if◌then◌else◌, Ok, Err, nat_lt};
ghost use Rattle.registers.specs.Registers.{index, registers, write_protected};
ghost use Rattle.terms.specs.Results.{ok_map};
ghost use Rattle.terms.specs.declared.refusal.Refusal.TheVariants.{IndexTooLarge};

use terms::Refusal;

#[derive(Clone, Copy, Debug, PartialEq, Eq)]
pub enum Register {
    State = 0x00,
    DozeLoad = 0x01,
    SleepLoad = 0x02,
    SuspendLoad = 0x03,
    Mask = 0x04,
    Cause = 0x05,
    Wake = 0x06,
    ActivityMask = 0x07,
    OnOutputs = 0x08,
    DozeOutputs = 0x09,
    SleepOutputs = 0x0A,
    SuspendOutputs = 0x0B,
    ViolationLow = 0x0C,
    ViolationMiddle = 0x0D,
    ViolationHigh = 0x0E,
    Outputs = 0x0F,
}

// The register of that index, if there is one.
impl TryFrom<u32> for Register {
    type Error = Refusal;

    ghost try_from_gives = { λ number r. ok_map index r ≡ (if nat_lt number registers then Ok number else Err IndexTooLarge) };

    fn try_from(number: u32) -> Result<Self, Refusal> {
        match number {
            0x00 => Ok(Register::State),
            0x01 => Ok(Register::DozeLoad),
            0x02 => Ok(Register::SleepLoad),
            0x03 => Ok(Register::SuspendLoad),
            0x04 => Ok(Register::Mask),
            0x05 => Ok(Register::Cause),
            0x06 => Ok(Register::Wake),
            0x07 => Ok(Register::ActivityMask),
            0x08 => Ok(Register::OnOutputs),
            0x09 => Ok(Register::DozeOutputs),
            0x0A => Ok(Register::SleepOutputs),
            0x0B => Ok(Register::SuspendOutputs),
            0x0C => Ok(Register::ViolationLow),
            0x0D => Ok(Register::ViolationMiddle),
            0x0E => Ok(Register::ViolationHigh),
            0x0F => Ok(Register::Outputs),
            _ => Err(Refusal::IndexTooLarge),
        }
    }
}

impl Register {
    // A method and no `From`: its name says what the number is.
    pub fn index(self) -> usize
        ensures index { result ≡ index self }
        ensures bound { result < registers }
    {
        self as usize
    }

    // CAUSE, the violation's address and the present outputs are not written by a frame. A match, as short as `matches!`.
    pub fn is_write_protected(self) -> bool
        ensures { result ≡ write_protected (index self) }
    {
        match self {
            Register::Cause
            | Register::ViolationLow
            | Register::ViolationMiddle
            | Register::ViolationHigh
            | Register::Outputs => true,
            _ => false,
        }
    }
}

// What a line asks for, read from its twelve digits.

use super::page::{Address, PageWord};
use super::words::{Input, Kind, Refusal, Register, State, Stored};

// A line of twelve digits and a known kind, whose other fields may still be wrong.
#[derive(Clone, Copy)]
pub struct Frame {
    pub kind: Kind,
    address: u32,
    value: u16,
}

// What a well-formed line asks for.
#[derive(Clone, Copy)]
pub enum Action {
    Reset,
    WriteState(State),
    WriteRegister { register: Stored, value: u8 },
    WriteFixedRegister,
    ReadRegister(Register),
    WritePage { page: u32, word: PageWord },
    ReadPage(u32),
    WriteByte { address: Address, value: u8 },
    ReadByte(Address),
    Tick,
    Activity { source_bit: u8 },
    Level { input: Input, is_high: bool },
    Alarm,
}

impl Frame {
    pub fn read(line: &[u8]) -> Result<Frame, Refusal> {
        if line.len() != 12 {
            return Err(Refusal::NoFrame);
        }
        let kind = number(&line[..2])?;
        let address = number(&line[2..8])?;
        let value = number(&line[8..])?;
        Ok(Frame {
            kind: Kind::try_from(kind)?,
            address,
            value: u16::try_from(value).map_err(|_| Refusal::LargeValue)?,
        })
    }

    // What the line asks for. The fields are tried in the order of rank: unused ones, value, address.
    pub fn action(self) -> Result<Action, Refusal> {
        if self.has_unused_digits() {
            return Err(Refusal::UnusedField);
        }
        Ok(match self.kind {
            Kind::Reset => Action::Reset,
            Kind::RegisterWrite => self.register_write()?,
            Kind::RegisterRead => Action::ReadRegister(Register::try_from(self.address)?),
            Kind::PageWrite => Action::WritePage {
                page: self.page()?,
                word: PageWord(self.value),
            },
            Kind::PageRead => Action::ReadPage(self.page()?),
            Kind::CpuWrite => {
                let value = self.byte()?;
                let address = Address::try_from(self.address)?;
                Action::WriteByte { address, value }
            }
            Kind::CpuRead => Action::ReadByte(Address::try_from(self.address)?),
            Kind::Tick => Action::Tick,
            Kind::Activity => Action::Activity {
                source_bit: self.source_bit()?,
            },
            Kind::Ext => self.level(Input::Ext)?,
            Kind::Ring => self.level(Input::Ring)?,
            Kind::Alarm => Action::Alarm,
            Kind::Battery => self.level(Input::Battery)?,
            Kind::Ac => self.level(Input::Ac)?,
        })
    }

    fn has_unused_digits(self) -> bool {
        let (uses_address, uses_value) = match self.kind {
            Kind::RegisterWrite | Kind::PageWrite | Kind::CpuWrite => (true, true),
            Kind::RegisterRead | Kind::PageRead | Kind::CpuRead | Kind::Activity => (true, false),
            Kind::Ext | Kind::Ring | Kind::Battery | Kind::Ac => (false, true),
            Kind::Reset | Kind::Tick | Kind::Alarm => (false, false),
        };
        (self.address != 0 && !uses_address) || (self.value != 0 && !uses_value)
    }

    fn register_write(self) -> Result<Action, Refusal> {
        if self.address == 0 {
            return Ok(Action::WriteState(State::try_from(self.value)?));
        }
        let value = self.byte()?;
        Ok(match Register::try_from(self.address)? {
            Register::Stored(register) => Action::WriteRegister { register, value },
            _ => Action::WriteFixedRegister,
        })
    }

    fn byte(self) -> Result<u8, Refusal> {
        u8::try_from(self.value).map_err(|_| Refusal::LargeValue)
    }

    fn page(self) -> Result<u32, Refusal> {
        if self.address > 0x3F {
            return Err(Refusal::LargeAddress);
        }
        Ok(self.address)
    }

    fn source_bit(self) -> Result<u8, Refusal> {
        if self.address > 7 {
            return Err(Refusal::LargeAddress);
        }
        Ok(1 << self.address)
    }

    fn level(self, input: Input) -> Result<Action, Refusal> {
        match self.value {
            0 => Ok(Action::Level {
                input,
                is_high: false,
            }),
            1 => Ok(Action::Level {
                input,
                is_high: true,
            }),
            _ => Err(Refusal::LargeValue),
        }
    }
}

impl Action {
    // Whether the line is refused in Suspend and Off.
    pub fn is_refused_asleep(self) -> bool {
        match self {
            Action::WriteState(_)
            | Action::WriteRegister { .. }
            | Action::WriteFixedRegister
            | Action::ReadRegister(_)
            | Action::WritePage { .. }
            | Action::ReadPage(_)
            | Action::WriteByte { .. }
            | Action::ReadByte(_) => true,
            Action::Reset
            | Action::Tick
            | Action::Activity { .. }
            | Action::Level { .. }
            | Action::Alarm => false,
        }
    }
}

fn number(digits: &[u8]) -> Result<u32, Refusal> {
    digits.iter().try_fold(0, |number, digit| Ok((number << 4) | digit_value(*digit)?))
}

fn digit_value(digit: u8) -> Result<u32, Refusal> {
    match digit {
        b'0'..=b'9' => Ok(u32::from(digit - b'0')),
        b'A'..=b'F' => Ok(u32::from(digit - b'A') + 10),
        _ => Err(Refusal::NoFrame),
    }
}

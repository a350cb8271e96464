// The kinds of frames, and what their fields may hold: one table, in specs/Kinds.antt.
ghost use Rattle.std.specs.Prelude.{◌≡◌};
ghost use Rattle.std.specs.Option.{ok_or};
ghost use Rattle.frames.specs.Kinds.{kind_of, a_top, v_top};
ghost use Rattle.terms.specs.declared.refusal.Refusal.TheVariants.{UnknownKind};

use terms::Refusal;

#[derive(Clone, Copy, Debug, PartialEq, Eq)]
pub enum Kind {
    Reset = 0x00,
    RegisterWrite = 0x01,
    RegisterRead = 0x02,
    PageWrite = 0x03,
    PageRead = 0x04,
    CpuWrite = 0x05,
    CpuRead = 0x06,
    Tick = 0x10,
    Activity = 0x11,
    Ext = 0x12,
    Ring = 0x13,
    Alarm = 0x14,
    Battery = 0x15,
    Ac = 0x16,
}

// The kind of that number, if it is listed.
impl TryFrom<u32> for Kind {
    type Error = Refusal;

    ghost try_from_gives = { λ number r. r ≡ ok_or (kind_of number) UnknownKind };

    fn try_from(number: u32) -> Result<Self, Refusal> {
        match number {
            0x00 => Ok(Kind::Reset),
            0x01 => Ok(Kind::RegisterWrite),
            0x02 => Ok(Kind::RegisterRead),
            0x03 => Ok(Kind::PageWrite),
            0x04 => Ok(Kind::PageRead),
            0x05 => Ok(Kind::CpuWrite),
            0x06 => Ok(Kind::CpuRead),
            0x10 => Ok(Kind::Tick),
            0x11 => Ok(Kind::Activity),
            0x12 => Ok(Kind::Ext),
            0x13 => Ok(Kind::Ring),
            0x14 => Ok(Kind::Alarm),
            0x15 => Ok(Kind::Battery),
            0x16 => Ok(Kind::Ac),
            _ => Err(Refusal::UnknownKind),
        }
    }
}

impl Kind {
    // The largest a; 0 where the field is unused, as the rules have it: an unused field holds 0.
    pub(crate) fn a_top(self) -> u32
        ensures { result ≡ a_top self }
    {
        match self {
            Kind::RegisterWrite | Kind::RegisterRead => 0x0F,
            Kind::PageWrite | Kind::PageRead => 0x3F,
            Kind::CpuWrite | Kind::CpuRead => 0xF_FFFF,
            Kind::Activity => 0x07,
            Kind::Reset
            | Kind::Tick
            | Kind::Ext
            | Kind::Ring
            | Kind::Alarm
            | Kind::Battery
            | Kind::Ac => 0,
        }
    }

    // The largest v beside an a; 0 where the field is unused.
    pub(crate) fn v_top(self, a: u32) -> u32
        ensures { result ≡ v_top self a }
    {
        match self {
            Kind::RegisterWrite if a == 0x00 => 4,
            Kind::RegisterWrite | Kind::CpuWrite => 0xFF,
            Kind::PageWrite => 0xFFFF,
            Kind::Ext | Kind::Ring | Kind::Battery | Kind::Ac => 1,
            Kind::Reset
            | Kind::RegisterRead
            | Kind::PageRead
            | Kind::CpuRead
            | Kind::Tick
            | Kind::Activity
            | Kind::Alarm => 0,
        }
    }
}

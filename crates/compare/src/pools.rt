// What lines are made of: few values, each telling, so that lines meet one another often.
use frames::Kind;
use registers::{Register, State};

// The kinds by how often they come.
pub const KINDS: [(Kind, usize); 14] = [
    (Kind::Reset, 1),
    (Kind::RegisterWrite, 4),
    (Kind::RegisterRead, 2),
    (Kind::PageWrite, 1),
    (Kind::PageRead, 1),
    (Kind::CpuWrite, 3),
    (Kind::CpuRead, 2),
    (Kind::Tick, 2),
    (Kind::Activity, 2),
    (Kind::Ext, 2),
    (Kind::Ring, 2),
    (Kind::Alarm, 1),
    (Kind::Battery, 1),
    (Kind::Ac, 1),
];

pub const UNKNOWN_KINDS: [u8; 8] = [0x07, 0x08, 0x0F, 0x17, 0x20, 0x7F, 0x80, 0xFF];

// The registers by how often they are written.
pub const REGISTERS: [(Register, usize); 16] = [
    (Register::State, 2),
    (Register::DozeLoad, 2),
    (Register::SleepLoad, 2),
    (Register::SuspendLoad, 2),
    (Register::Mask, 3),
    (Register::Cause, 1),
    (Register::Wake, 2),
    (Register::ActivityMask, 1),
    (Register::OnOutputs, 2),
    (Register::DozeOutputs, 1),
    (Register::SleepOutputs, 1),
    (Register::SuspendOutputs, 1),
    (Register::ViolationLow, 1),
    (Register::ViolationMiddle, 1),
    (Register::ViolationHigh, 1),
    (Register::Outputs, 1),
];

// Where a violation is noted.
pub const VIOLATION: [Register; 3] = [
    Register::ViolationLow,
    Register::ViolationMiddle,
    Register::ViolationHigh,
];

// An awake state, and the registers that count for it.
#[derive(Clone, Copy)]
pub struct Awake {
    pub state: State,
    pub load: Register,
    pub outputs: Register,
}

pub const AWAKE: [Awake; 3] = [
    Awake {
        state: State::On,
        load: Register::DozeLoad,
        outputs: Register::OnOutputs,
    },
    Awake {
        state: State::Doze,
        load: Register::SleepLoad,
        outputs: Register::DozeOutputs,
    },
    Awake {
        state: State::Sleep,
        load: Register::SuspendLoad,
        outputs: Register::SleepOutputs,
    },
];

pub const STATES: [State; 10] = [
    State::On,
    State::On,
    State::Doze,
    State::Doze,
    State::Doze,
    State::Sleep,
    State::Sleep,
    State::Sleep,
    State::Suspend,
    State::Off,
];

pub const SLEEPS: [State; 2] = [State::Suspend, State::Off];

pub const LOADS: [u16; 5] = [0, 1, 1, 1, 2];

pub const MASKS: [u16; 18] = [
    0x00, 0x00, 0x00, 0x3F, 0x3F, 0x01, 0x02, 0x04, 0x08, 0x10, 0x20, 0x3E, 0x3D, 0x3B, 0x37, 0x2F,
    0x1F, 0xC0,
];

pub const WAKES: [u16; 12] = [
    0x00, 0x01, 0x01, 0x02, 0x03, 0x07, 0x08, 0x09, 0x0A, 0x0D, 0xF1, 0xF8,
];

pub const IGNORED: [u16; 6] = [0x00, 0x00, 0x01, 0x80, 0x0F, 0xFF];

pub const OUTPUTS: [u16; 10] = [0x0F, 0x0F, 0x0F, 0x0E, 0x02, 0x00, 0x0D, 0x07, 0x06, 0xFB];

pub const BYTES: [u16; 6] = [0x00, 0x01, 0x5A, 0xA5, 0xFE, 0xFF];

// The pages that are mapped again and again, and those that are accessed: after a reset page 63 is the ROM's.
pub const MAPPED_PAGES: [u32; 3] = [0, 1, 2];

pub const PAGES: [u32; 9] = [0, 0, 0, 1, 1, 2, 2, 53, 63];

// Device pages; the last lies beyond the end of every device.
pub const DEVICE_PAGES: [u16; 8] = [0x000, 0x000, 0x000, 0x000, 0x000, 0x001, 0x002, 0xFFF];

pub const OFFSETS: [u32; 24] = [
    0, 0, 0, 1, 1, 1, 2, 2, 3, 6, 16, 99, 198, 2_047, 2_048, 4_095, 4_096, 6_143, 8_191, 8_192,
    12_287, 12_288, 16_382, 16_383,
];

// Bits that make a field too large for one kind or another.
pub const TOO_LARGE_A: [u32; 8] = [
    0x00_0001, 0x00_0008, 0x00_0010, 0x00_0040, 0x00_0100, 0x10_0000, 0x80_0000, 0xFF_FFFF,
];

pub const TOO_LARGE_V: [u16; 7] = [0x0001, 0x0002, 0x0005, 0x0100, 0x0400, 0x8000, 0xFFFF];

// Bytes that are no digits, most of them next to digits, or taken for digits elsewhere.
pub const STRAY_BYTES: [u8; 14] = [
    b'/', b':', b'@', b'G', b'`', b'a', b'f', b'g', b' ', b'\t', b'\r', b'\n', 0x00, 0xFF,
];

// Of each kind, frames with one field that is just too large.
pub const JUST_BEYOND: [(Kind, u32, u16); 28] = [
    (Kind::Reset, 0x01, 0),
    (Kind::Reset, 0, 1),
    (Kind::RegisterWrite, 0x00, 5),
    (Kind::RegisterWrite, 0x04, 0x100),
    (Kind::RegisterWrite, 0x10, 0),
    (Kind::RegisterRead, 0x10, 0),
    (Kind::RegisterRead, 0x00, 1),
    (Kind::PageWrite, 0x40, 0x8000),
    (Kind::PageRead, 0x40, 0),
    (Kind::PageRead, 0x00, 1),
    (Kind::CpuWrite, 0x10_0000, 0),
    (Kind::CpuWrite, 0x0_0000, 0x100),
    (Kind::CpuRead, 0x10_0000, 0),
    (Kind::CpuRead, 0x0_0000, 1),
    (Kind::Tick, 1, 0),
    (Kind::Tick, 0, 1),
    (Kind::Activity, 8, 0),
    (Kind::Activity, 0, 1),
    (Kind::Ext, 1, 1),
    (Kind::Ext, 0, 2),
    (Kind::Ring, 1, 1),
    (Kind::Ring, 0, 2),
    (Kind::Alarm, 1, 0),
    (Kind::Alarm, 0, 1),
    (Kind::Battery, 1, 1),
    (Kind::Battery, 0, 2),
    (Kind::Ac, 1, 1),
    (Kind::Ac, 0, 2),
];

// The sizes of chips: around the ends of segments and pages, and small ones.
pub const CHIP_SIZES: [usize; 12] = [
    1, 7, 100, 1_500, 2_048, 2_049, 4_097, 6_000, 16_383, 16_384, 16_385, 20_000,
];

// The numbers of the segments that a guard protects.
pub const FLAGS: [u8; 8] = [0, 1, 1, 2, 3, 4, 7, 255];

// A line taken apart: digits, fields, and the command that they make.
ghost use Rattle.std.specs.Prelude.{◌≡◌, ◌+◌, ◌*◌, ◌<◌, ◌≤◌, ◌&&◌, IfSome, if◌then◌else◌, Some, None, Ok, Err};
ghost use Rattle.frames.specs.Lines.{digit, is_digit, is_frame};
ghost use Rattle.frames.specs.Kinds.{kind_of, a_top, v_top};
ghost use Rattle.frames.specs.Decode.{checked, listed, decoded};
ghost use Rattle.frames.specs.Frames.{fields_of, frame_of};
ghost use Rattle.terms.specs.Results.{ok_map};

use super::{Command, Kind};
use registers::{Event, Register, Source};
use terms::{CpuAddress, CpuPage, Refusal};

// The digits of a frame: two of kind, six of a, four of v.
pub const FRAME_LENGTH: usize = 12;

// The three numbers of a frame, as the digits spell them: the first need not be that of a kind.
#[derive(Clone, Copy, Debug, PartialEq, Eq)]
pub struct Fields {
    kind: u32,
    a: u32,
    v: u32,
}

// The command of a line, or why it is no well-formed frame.
pub fn decode(line: &[u8]) -> Result<Command, Refusal>
    ensures { ok_map frame_of result ≡ decoded line.now }
{
    let fields = cut(line).ok_or(Refusal::NotAFrame)?;
    interpret(fields)
}

pub fn interpret(fields: Fields) -> Result<Command, Refusal>
    ensures { ok_map frame_of result ≡ listed (kind_of fields.kind) fields.a fields.v }
{
    let Fields { kind, a, v } = fields;
    let kind = Kind::try_from(kind)?;
    Frame { kind, a, v }.command()
}

// The fields of a line of twelve digits.
#[tactic(auto, using(crate::proofs::Digits::twelve))]
pub fn cut(line: &[u8]) -> Option<Fields>
    ensures { result ≡ (if is_frame line.now then Some (fields_of line.now) else None) }
{
    let [k1, k0, a5, a4, a3, a2, a1, a0, v3, v2, v1, v0] = line else {
        return None;
    };
    Some(Fields {
        kind: u32::from(byte(*k1, *k0)?),
        a: u32::from(byte(*a5, *a4)?) * 0x10000 + u32::from(word(*a3, *a2, *a1, *a0)?),
        v: u32::from(word(*v3, *v2, *v1, *v0)?),
    })
}

// The value of four digits.
fn word(d3: u8, d2: u8, d1: u8, d0: u8) -> Option<u16>
    ensures { result ≡ (if is_digit d3 && (is_digit d2 && (is_digit d1 && is_digit d0)) then Some (digit d3 * 0x1000 + digit d2 * 0x100 + digit d1 * 0x10 + digit d0) else None) }
{
    Some(u16::from(byte(d3, d2)?) * 0x100 + u16::from(byte(d1, d0)?))
}

// The value of two digits.
fn byte(high: u8, low: u8) -> Option<u8>
    ensures { result ≡ (if is_digit high && is_digit low then Some (digit high * 0x10 + digit low) else None) }
{
    Some(digit(high)? * 0x10 + digit(low)?)
}

// The value of a digit, 0-9 and A-F.
fn digit(b: u8) -> Option<u8>
    ensures bound { IfSome result (λ n. n < 0x10) }
    ensures value { result ≡ (if is_digit b then Some (digit b) else None) }
{
    match b {
        b'0'..=b'9' => Some(b - b'0'),
        b'A'..=b'F' => Some(b - b'A' + 10),
        _ => None,
    }
}

// A frame of a listed kind. Its fields may be too large for it.
#[derive(Clone, Copy)]
struct Frame {
    kind: Kind,
    a: u32,
    v: u32,
}

impl Frame {
    // The command, if the fields are what the kind allows.
    fn command(self) -> Result<Command, Refusal>
        ensures { ok_map frame_of result ≡ checked self.kind self.a self.v }
    {
        self.check()?;
        self.build()
    }

    fn check(self) -> Result<(), Refusal>
        ensures { ok_map (λ _. record { kind = self.kind; a = self.a; v = self.v }) result ≡ checked self.kind self.a self.v }
    {
        let a_top = self.kind.a_top();
        let v_top = self.kind.v_top(self.a);
        if (a_top == 0 && self.a != 0) || (v_top == 0 && self.v != 0) {
            return Err(Refusal::UnusedFieldNotZero);
        }
        if self.v > v_top {
            return Err(Refusal::ValueTooLarge);
        }
        if self.a > a_top {
            return Err(Refusal::IndexTooLarge);
        }
        Ok(())
    }

    // The command of fields that were checked.
    fn build(self) -> Result<Command, Refusal>
        requires { (self.a ≤ a_top self.kind) × (self.v ≤ v_top self.kind self.a) }
        ensures { ok_map frame_of result ≡ Ok (record { kind = self.kind; a = self.a; v = self.v }) }
    {
        match self.kind {
            Kind::Reset => Ok(Command::Reset),
            Kind::RegisterWrite => Ok(Command::RegisterWrite(
                Register::try_from(self.a)?,
                self.v as u8,
            )),
            Kind::RegisterRead => Ok(Command::RegisterRead(Register::try_from(self.a)?)),
            Kind::PageWrite => Ok(Command::PageWrite(CpuPage::try_from(self.a)?, self.v as u16)),
            Kind::PageRead => Ok(Command::PageRead(CpuPage::try_from(self.a)?)),
            Kind::CpuWrite => Ok(Command::CpuWrite(CpuAddress::try_from(self.a)?, self.v as u8)),
            Kind::CpuRead => Ok(Command::CpuRead(CpuAddress::try_from(self.a)?)),
            Kind::Tick => Ok(Command::Input(Event::Tick)),
            Kind::Activity => Ok(Command::Input(Event::Activity(Source::try_from(self.a)?))),
            Kind::Ext => Ok(Command::Input(Event::Ext(self.v == 1))),
            Kind::Ring => Ok(Command::Input(Event::Ring(self.v == 1))),
            Kind::Alarm => Ok(Command::Input(Event::Alarm)),
            Kind::Battery => Ok(Command::Input(Event::Battery(self.v == 1))),
            Kind::Ac => Ok(Command::Input(Event::Ac(self.v == 1))),
        }
    }
}

// What is handed in: a frame's kind and its fields. The library takes lines apart and has none to spell.
use frames::Kind;
use registers::Register;
use std::fmt;

#[derive(Clone, Copy)]
pub struct Frame {
    kind: Kind,
    a: u32,
    v: u16,
}

impl Frame {
    pub fn new(kind: Kind, a: u32, v: u16) -> Frame {
        Frame { kind, a, v }
    }

    // A frame that writes a register.
    pub fn write(register: Register, value: u16) -> Frame {
        Frame::new(Kind::RegisterWrite, register as u32, value)
    }

    // A frame of an input, with its level where it has one.
    pub fn input(kind: Kind, v: u16) -> Frame {
        Frame::new(kind, 0, v)
    }
}

impl fmt::Display for Frame {
    fn fmt<W: fmt::Write>(&self, f: &mut fmt::Formatter<W>) -> fmt::Result {
        let kind = self.kind as u8;
        write!(f, "{kind:02X}{:06X}{:04X}", self.a, self.v)
    }
}

// Lines as they are handed in: frames spelled in digits, and lines that are none.
ghost use Rattle.std.specs.Prelude.{◌≤◌};

use frames::Kind;
use std::fmt;

// The fields of a frame, as plain numbers: they may be too large for their kind, and the kind may be none that there is.
#[derive(Clone, Copy)]
pub struct Frame {
    pub kind: u8,
    pub a: u32,
    pub v: u16,
}

impl Frame {
    pub fn new(kind: Kind, a: u32, v: u16) -> Frame {
        Frame {
            kind: kind as u8,
            a,
            v,
        }
    }
}

pub const LONGEST: usize = 40;

// A line, without the 0Ah that ends it.
// An array with a length, and no `Vec`: a line is copied into many lists, and a copy of an array cannot fail.
#[derive(Clone, Copy)]
pub struct Line {
    bytes: [u8; LONGEST],
    length: usize,
    ghost fits: { length ≤ 40 },
}

// Without a formatter, since each of a million lines is spelled.
impl From<Frame> for Line {
    fn from(frame: Frame) -> Line {
        let Frame { kind, a, v } = frame;
        let [_, a2, a1, a0] = a.to_be_bytes();
        let [v1, v0] = v.to_be_bytes();
        let mut line = Line::empty();
        for byte in [kind, a2, a1, a0, v1, v0] {
            line.push(low_digit(byte >> 4));
            line.push(low_digit(byte));
        }
        line
    }
}

fn low_digit(byte: u8) -> u8 {
    match byte % 16 {
        number @ 0..=9 => b'0' + number,
        number => b'A' + (number - 10),
    }
}

impl Line {
    pub fn empty() -> Line {
        Line {
            bytes: [0; LONGEST],
            length: 0,
        }
    }

    pub fn bytes(&self) -> &[u8] {
        &self.bytes[0..self.length]
    }

    // A byte beyond the longest line is left out.
    pub fn push(&mut self, byte: u8) {
        if self.length < LONGEST {
            self.bytes[self.length] = byte;
            self.length += 1;
        }
    }

    pub fn replace(&mut self, at: usize, byte: u8) {
        if at < self.length {
            self.bytes[at] = byte;
        }
    }

    pub fn cut(&mut self, length: usize) {
        self.length = self.length.min(length);
    }
}

// Digits and letters as they are, any other byte as its two digits in angle brackets.
impl fmt::Display for Line {
    fn fmt<W: fmt::Write>(&self, f: &mut fmt::Formatter<W>) -> fmt::Result {
        if self.bytes().is_empty() {
            return f.write_str("(empty)");
        }
        for byte in self.bytes() {
            if byte.is_ascii_alphanumeric() {
                write!(f, "{}", char::from(*byte))?;
            } else {
                write!(f, "<{byte:02X}>")?;
            }
        }
        Ok(())
    }
}

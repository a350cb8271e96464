// Lines that are refused for their form: frames with wrong fields, and lines that are no frames.
use crate::line::{Frame, LONGEST, Line};
use crate::pools;
use crate::random::Random;
use frames::FRAME_LENGTH;

// An enum with a match, and no table of functions: what is known of a function is lost where it is drawn from a table.
#[derive(Clone, Copy)]
enum Damage {
    Emptied,
    Cut,
    Stretched,
    LowerCase,
    CarriageReturn,
    StrayByte,
    Noise,
}

const DAMAGES: [Damage; 7] = [
    Damage::Emptied,
    Damage::Cut,
    Damage::Stretched,
    Damage::LowerCase,
    Damage::CarriageReturn,
    Damage::StrayByte,
    Damage::Noise,
];

// Any of the three fields may be changed, or several, so that the rank of the refusals counts.
pub fn distort(random: &mut Random, frame: Frame) -> Frame {
    let Frame { kind, a, v } = frame;
    Frame {
        kind: if random.one_in(5) {
            random.pick(&pools::UNKNOWN_KINDS)
        } else {
            kind
        },
        a: if random.one_in(2) {
            a | random.pick(&pools::TOO_LARGE_A)
        } else {
            a
        },
        v: if random.one_in(2) {
            v | random.pick(&pools::TOO_LARGE_V)
        } else {
            v
        },
    }
}

pub fn spoil(random: &mut Random, line: &mut Line) {
    match random.pick(&DAMAGES) {
        Damage::Emptied => line.cut(0),
        Damage::Cut => line.cut(1 + random.below(FRAME_LENGTH - 1)),
        Damage::Stretched => stretch(random, line),
        Damage::LowerCase => {
            let at = random.below(FRAME_LENGTH);
            line.replace(at, b'a' + (random.below(6) as u8));
        }
        Damage::CarriageReturn => line.push(b'\r'),
        Damage::StrayByte => {
            let at = random.below(FRAME_LENGTH);
            line.replace(at, random.pick(&pools::STRAY_BYTES));
        }
        Damage::Noise => {
            *line = noise(random);
        }
    }
}

fn stretch(random: &mut Random, line: &mut Line) {
    let more = 1 + random.below(LONGEST - FRAME_LENGTH);
    for _ in 0..more {
        line.push(b'0');
    }
}

fn noise(random: &mut Random) -> Line {
    let length = random.below(LONGEST + 1);
    let mut line = Line::empty();
    for _ in 0..length {
        line.push(random.byte());
    }
    line
}

// What is made of a line, and the twelve digits that say so.

use super::stack::{Outputs, PowerLine};
use super::words::{Cause, Kind, Refusal, State, Waker};

// What is made of a line.
#[derive(Clone, Copy)]
pub struct Verdict {
    // None where the line is no frame, or one of an unknown kind.
    pub kind: Option<Kind>,
    // The value read, or 0 where nothing is read; or why the line is refused.
    pub outcome: Result<u16, Refusal>,
    // The state after the line.
    pub state: State,
    // The cause that arose by the line.
    pub arose: Option<Cause>,
    // What ended Suspend or Off, if this line did.
    pub woke: Option<Waker>,
    pub(super) outputs_before: Outputs,
    pub(super) outputs: Outputs,
    pub(super) is_cause_pending: bool,
}

impl Verdict {
    // Whether the line made that power line fall.
    pub fn cuts_power(&self, line: PowerLine) -> bool {
        self.outputs_before.supplies(line) && !self.outputs.supplies(line)
    }

    // The twelve digits of the answer.
    pub fn digits(&self) -> [u8; 12] {
        let (number, value) = match self.outcome {
            Ok(value) => (0, value),
            Err(refusal) => (refusal as u8, 0),
        };
        let [value_high, value_low] = value.to_be_bytes();
        let state = self.state as u8;
        let outputs = self.outputs.0;
        let attention = u8::from(self.is_cause_pending);
        [
            high_digit(number),
            low_digit(number),
            high_digit(value_high),
            low_digit(value_high),
            high_digit(value_low),
            low_digit(value_low),
            high_digit(state),
            low_digit(state),
            high_digit(outputs),
            low_digit(outputs),
            high_digit(attention),
            low_digit(attention),
        ]
    }
}

fn high_digit(byte: u8) -> u8 {
    low_digit(byte >> 4)
}

fn low_digit(byte: u8) -> u8 {
    match byte & 0x0F {
        number @ 0..=9 => b'0' + number,
        number => b'A' + (number - 10),
    }
}

// The engine as it is compared: as it is, or with a fault put in to see that the comparison notices it.
use frames::{Answer, Command, FRAME_LENGTH, decode};
use registers::{Register, State};
use std::fmt;

// What stands between the lines and the engine. `ask` has the engine answer a line.
pub trait Fault: Copy + Default {
    fn answer<F: FnOnce(&[u8]) -> Answer>(&mut self, line: &[u8], ask: F) -> Answer
        requires { F.IsAlwaysCallable ask };
}

#[derive(Clone, Copy, Default)]
pub struct Sound;

impl Fault for Sound {
    fn answer<F: FnOnce(&[u8]) -> Answer>(&mut self, line: &[u8], ask: F) -> Answer {
        ask(line)
    }
}

// The first answer that says Suspend says Off instead.
#[derive(Clone, Copy, Default)]
pub struct WrongState {
    happened: bool,
}

impl Fault for WrongState {
    fn answer<F: FnOnce(&[u8]) -> Answer>(&mut self, line: &[u8], ask: F) -> Answer {
        let answer = ask(line);
        if self.happened || answer.state != State::Suspend {
            return answer;
        }
        self.happened = true;
        Answer {
            state: State::Off,
            ..answer
        }
    }
}

impl fmt::Display for WrongState {
    fn fmt<W: fmt::Write>(&self, f: &mut fmt::Formatter<W>) -> fmt::Result {
        f.write_str("a wrong state in an answer")
    }
}

// The first CPU write that is taken stores another byte.
#[derive(Clone, Copy, Default)]
pub struct LostByte {
    happened: bool,
}

impl Fault for LostByte {
    fn answer<F: FnOnce(&[u8]) -> Answer>(&mut self, line: &[u8], ask: F) -> Answer {
        match with_another_value(line) {
            Some(changed) if !self.happened => {
                let answer = ask(&changed);
                self.happened = answer.outcome.is_ok();
                answer
            }
            _ => ask(line),
        }
    }
}

impl fmt::Display for LostByte {
    fn fmt<W: fmt::Write>(&self, f: &mut fmt::Formatter<W>) -> fmt::Result {
        f.write_str("another byte stored")
    }
}

// A read of CAUSE shows the bits of the read before it as well.
#[derive(Clone, Copy, Default)]
pub struct CauseKept {
    // What the last read of CAUSE showed.
    causes: u16,
}

impl Fault for CauseKept {
    fn answer<F: FnOnce(&[u8]) -> Answer>(&mut self, line: &[u8], ask: F) -> Answer {
        let answer = ask(line);
        match answer.outcome {
            Ok(causes) if decode(line) == Ok(Command::RegisterRead(Register::Cause)) => {
                let shown = causes | self.causes;
                self.causes = causes;
                Answer {
                    outcome: Ok(shown),
                    ..answer
                }
            }
            _ => answer,
        }
    }
}

impl fmt::Display for CauseKept {
    fn fmt<W: fmt::Write>(&self, f: &mut fmt::Formatter<W>) -> fmt::Result {
        f.write_str("causes that a read does not clear")
    }
}

// The line with another last digit, where it is a CPU write. Whether that is taken does not depend on the digit.
fn with_another_value(line: &[u8]) -> Option<[u8; FRAME_LENGTH]> {
    if !matches!(decode(line), Ok(Command::CpuWrite(..))) {
        return None;
    }
    let mut changed = <[u8; FRAME_LENGTH]>::try_from(line).ok()?;
    let [.., last] = &mut changed;
    *last = if *last == b'0' { b'1' } else { b'0' };
    Some(changed)
}

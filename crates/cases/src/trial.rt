// A trial on the board that the program runs on.
ghost use Rattle.std.specs.Prelude.{◌≤◌, length};

use board::{CHIP, assemble, burn};
use frames::ANSWER_LENGTH;
use link::Link;
use machine::Sockets;
use std::process::Abort;
use std::test::*;

// A link to an engine, whose devices are out of sight.
pub trait Answers {
    // Writes the answers to the chunk, where there is room for them, and returns how many bytes they are.
    fn answer(&mut self, chunk: &[u8], out: &mut [u8]) -> usize
        ensures { result ≤ length out.old };

    // The answer to a last line that has no end.
    fn answer_end(&mut self) -> Option<[u8; ANSWER_LENGTH]>;
}

impl<S: Sockets> Answers for Link<S> {
    fn answer(&mut self, chunk: &[u8], out: &mut [u8]) -> usize {
        self.receive(chunk, out).written
    }

    fn answer_end(&mut self) -> Option<[u8; ANSWER_LENGTH]> {
        self.finish().map(|answer| answer.spell())
    }
}

// What is tried on a link. A trait, since a closure cannot take any `Answers`.
pub trait Trial {
    fn run(self, rt: &impl Abort, link: &mut impl Answers) -> Result<(), Fail>;
}

// Runs the trial on a board of its own.
pub(crate) fn on_board(rt: &impl Abort, trial: impl Trial) -> Result<(), Fail> {
    let mut even = [0; CHIP];
    let mut odd = [0; CHIP];
    let mut rom = [0; CHIP];
    let mut card = [0; CHIP];
    burn(&mut rom);
    trial.run(rt, &mut assemble(&mut even, &mut odd, &rom, &mut card))
}

// Both implementations on one list of lines, each from new, and where they differ first.
use crate::boards::{Built, DeepStack, GuardOverPair, Setup, Shape, build_program};
use crate::fault::Fault;
use crate::line::Line;
use crate::parts::{Bench, Stock};
use crate::reply::Reply;
use crate::second::{Second, Verdict};
use machine::{Engine, Sockets};
use std::alloc::{AllocError, Global};
use std::fmt;

// So many places have bytes that go up by one; the next one's go up by two.
const ROW: usize = 251;

// A list of lines, and what it is run on.
#[derive(Clone, Copy)]
pub struct Trial<'a, F> {
    pub setup: &'a Setup,
    // The number of the list. The first bytes of the chips follow from it.
    pub list: usize,
    pub fault: F,
    pub lines: &'a [Line],
}

// What one implementation made of a list.
#[derive(Drop)]
pub struct Side<A> {
    // One for each line.
    pub answers: Vec<A>,
    // The chips' bytes at the end.
    bytes: Vec<u8>,
}

#[derive(Drop)]
pub struct Outcome {
    pub engine: Side<Reply>,
    pub second: Side<Verdict>,
}

// Two values that should be one, and where they are.
#[derive(Clone, Copy)]
pub struct Mismatch<T> {
    at: usize,
    engine: T,
    second: T,
}

#[derive(Clone, Copy)]
pub enum Difference {
    Answer(Mismatch<Reply>),
    // A byte by its number in the flat list of the chips' bytes.
    Byte(Mismatch<u8>),
}

impl<F: Fault> Trial<'_, F> {
    pub fn run(&self, heap: Global) -> Result<Outcome, AllocError> {
        let board = self.setup.describe(heap)?;
        let first = first_bytes(heap, board.bytes, self.list)?;

        let mut bytes = first.clone()?;
        let answers = self.engine_replies(heap, bytes.as_mut_slice())?;
        let engine = Side { answers, bytes };

        let mut second = Second::new(heap, &board, first.as_slice());
        let mut answers = Vec::with_capacity(heap, self.lines.len())?;
        for line in self.lines {
            answers.push(second.answer(line.bytes())?)?;
        }
        let bytes = second.bytes(heap)?;
        let second = Side { answers, bytes };
        Ok(Outcome { engine, second })
    }

    fn engine_replies(&self, heap: Global, bytes: &mut [u8]) -> Result<Vec<Reply>, AllocError> {
        let stock = Stock::of(self.setup);
        let bench = Bench { stock, bytes };
        match self.setup.shape {
            Shape::Program => self.replies_of(heap, build_program(bench)),
            Shape::GuardOverPair => self.replies_of(heap, GuardOverPair::build(bench)),
            Shape::DeepStack => self.replies_of(heap, DeepStack::build(bench)),
        }
    }

    // The devices are any here, so that the proof sees nothing of them.
    fn replies_of<S: Sockets + Drop>(
        &self,
        heap: Global,
        mut engine: Engine<S>,
    ) -> Result<Vec<Reply>, AllocError> {
        let mut fault = self.fault;
        let mut replies = Vec::with_capacity(heap, self.lines.len())?;
        for line in self.lines {
            let answer = fault.answer(line.bytes(), |line| engine.frame(line));
            replies.push(Reply::from(answer))?;
        }
        Ok(replies)
    }
}

impl Outcome {
    pub fn difference(&self) -> Option<Difference> {
        let Outcome { engine, second } = self;
        first_mismatch(&engine.answers, &second.answers)
            .map(Difference::Answer)
            .or_else(|| first_mismatch(&engine.bytes, &second.bytes).map(Difference::Byte))
    }
}

// The second's values are compared as what they are for the engine.
fn first_mismatch<T: Copy + PartialEq + From<U>, U: Copy>(
    engine: &[T],
    second: &[U],
) -> Option<Mismatch<T>> {
    let at = engine
        .iter()
        .zip(second)
        .position(|(one, other)| *one != T::from(*other))?;
    Some(Mismatch {
        at,
        engine: *engine.get(at)?,
        second: T::from(*second.get(at)?),
    })
}

impl fmt::Display for Difference {
    fn fmt<W: fmt::Write>(&self, f: &mut fmt::Formatter<W>) -> fmt::Result {
        match self {
            Difference::Answer(Mismatch { at, engine, second }) => {
                // Lines are told from 1 on.
                let line = at.saturating_add(1);
                write!(
                    f,
                    "line {line}: the engine answers {engine}, the second {second}"
                )
            }
            Difference::Byte(Mismatch { at, engine, second }) => {
                write!(
                    f,
                    "byte {at} of the chips: the engine has {engine:02X}, the second {second:02X}"
                )
            }
        }
    }
}

// The first bytes of the chips: different from place to place, from page to page and from list to list. Made row by row,
// so that no place costs a division.
fn first_bytes(heap: Global, count: usize, list: usize) -> Result<Vec<u8>, AllocError> {
    let mut bytes = vec![in heap; 0u8; count]?;
    for (row, places) in bytes.chunks_mut(ROW).enumerate() {
        let first = row.wrapping_mul(ROW + 1).wrapping_add(list);
        for (column, byte) in places.iter_mut().enumerate() {
            *byte = (first.wrapping_add(column) % 256) as u8;
        }
    }
    Ok(bytes)
}

// The engine, decided for each line by looking back over the lines before it.

mod answer;
mod effect;
mod frame;
mod judging;
mod memory;
mod page;
mod past;
mod record;
pub mod stack;
mod words;

pub use answer::Verdict;
use effect::Effect;
use frame::Frame;
use memory::Memory;
use past::Past;
use record::{Deed, Record};
use stack::Board;
use std::alloc::{AllocError, Global};
pub use words::{Cause, Kind, Refusal, State, Waker};

// An engine over a board, and the lines that it was given.
#[derive(Drop)]
pub struct Second<'a> {
    memory: Memory<'a>,
    past: Past,
}

impl<'a> Second<'a> {
    // A new engine over the board. `first` has the first bytes of all its chips, one flat list.
    pub fn new(heap: Global, board: &'a Board, first: &'a [u8]) -> Second<'a> {
        Second {
            memory: Memory::new(board, first),
            past: Past::new(heap),
        }
    }

    // What becomes of a line, given without its end. Where memory runs out, nothing does.
    pub fn answer(&mut self, line: &[u8]) -> Result<Verdict, AllocError> {
        let record = self.record_of(line);
        self.past.push(record)?;
        Ok(record.verdict)
    }

    // What each byte of the flat list is now.
    pub fn bytes(&self, heap: Global) -> Result<Vec<u8>, AllocError> {
        self.memory.bytes(&self.past, heap)
    }

    fn record_of(&self, line: &[u8]) -> Record {
        let frame = match Frame::read(line) {
            Ok(frame) => frame,
            Err(refusal) => return self.malformed(None, refusal),
        };
        let action = match frame.action() {
            Ok(action) => action,
            Err(refusal) => return self.malformed(Some(frame.kind), refusal),
        };
        let kind = Some(frame.kind);
        match judging::judge(&self.past, self.memory, action) {
            Ok(effect) => self.record(kind, Ok(effect.value), Deed::Taken(action), effect),
            Err(refusal) => {
                let (deed, effect) = judging::refuse(&self.past, action, refusal);
                self.record(kind, Err(refusal), deed, effect)
            }
        }
    }

    fn malformed(&self, kind: Option<Kind>, refusal: Refusal) -> Record {
        self.record(kind, Err(refusal), Deed::Nothing, Effect::none(&self.past))
    }

    fn record(
        &self,
        kind: Option<Kind>,
        outcome: Result<u16, Refusal>,
        deed: Deed,
        effect: Effect,
    ) -> Record {
        let is_cause_pending = effect.arose.is_some()
            || (!deed.clears_causes() && self.past.is_cause_pending());
        Record {
            deed,
            verdict: Verdict {
                kind,
                outcome,
                state: effect.state,
                arose: effect.arose,
                woke: effect.woke,
                outputs_before: self.past.outputs(),
                outputs: effect.outputs,
                is_cause_pending,
            },
            restarts_counter: effect.restarts_counter,
            written: effect.written,
        }
    }
}

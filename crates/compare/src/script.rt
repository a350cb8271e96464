// A list of lines, written up to a goal.
use crate::line::Line;
use std::alloc::{AllocError, Global};

// The capacity is the goal.
#[derive(Drop)]
pub struct Script {
    lines: Vec<Line>,
}

impl Script {
    pub fn new(heap: Global, goal: usize) -> Result<Script, AllocError> {
        Ok(Script {
            lines: Vec::with_capacity(heap, goal)?,
        })
    }

    pub fn is_full(&self) -> bool {
        self.lines.len() >= self.lines.capacity()
    }

    // Lines beyond the goal are left out.
    pub fn add(&mut self, line: Line) {
        if self.lines.len() < self.lines.capacity() {
            self.lines.push_reserved(line);
        }
    }

    pub fn lines(&self) -> &[Line] {
        self.lines.as_slice()
    }
}

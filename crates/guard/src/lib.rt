// A guard: a layer that write-protects parts of any device.
#![tactic(auto)]

mod guard;

pub use guard::{Guard, SegmentSize};

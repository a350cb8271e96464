// The board that the program runs on: what stands in its four sockets.
#![tactic(auto)]

mod memory;

pub use memory::{BoardDevices, BoardLink, CHIP, Memory, assemble, burn};

// RAM, and RAM with a battery, over the caller's bytes.
#![tactic(auto)]

mod ram;

pub use ram::{BackedRam, Chip, Ram};

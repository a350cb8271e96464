// The words that every layer shares: addresses, places, the limit on places, and why a frame is refused.
#![tactic(auto)]

mod address;
mod place;
mod refusal;

pub use address::{CpuAddress, CpuPage};
pub use place::{PAGE_SIZE, PLACES, Place};
pub use refusal::{Fault, Refusal};

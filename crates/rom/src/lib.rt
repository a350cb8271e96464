// Devices that no write reaches: ROM over the caller's bytes, and an empty socket.
#![tactic(auto)]

mod empty;
mod rom;

pub use empty::Empty;
pub use rom::Rom;

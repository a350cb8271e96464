// The engine: a line in, an answer out, over any four devices.
#![tactic(auto)]

mod engine;
mod sockets;

pub use engine::Engine;
pub use sockets::{Devices, Sockets};

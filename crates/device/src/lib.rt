// What the engine asks of whatever stands in a socket, what its answers mean, and bytes as the places of a device.
#![tactic(auto)]

pub mod bytes;
mod interface;

pub use interface::Device;

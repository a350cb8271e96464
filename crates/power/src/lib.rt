// The power unit: registers, states, inputs and counters. It knows no page and no device.
#![tactic(auto)]

mod cause;
mod commands;
mod inputs;
mod outputs;
mod unit;

pub use cause::Cause;
pub use unit::PowerUnit;

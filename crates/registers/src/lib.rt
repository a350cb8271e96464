// The states, the registers and the events of the power unit, by name.
#![tactic(auto)]

mod event;
mod register;
mod state;

pub use event::{Event, Source};
pub use register::Register;
pub use state::State;

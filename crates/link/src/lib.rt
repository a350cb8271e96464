// Lines out of chunks of bytes, each answered by the engine.
#![tactic(auto)]

mod held;
mod link;
mod stream;

pub use link::Link;
pub use stream::{Progress, Run};

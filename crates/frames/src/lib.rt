// A line taken apart to the command that it is, and an answer spelled out.
#![tactic(auto)]

mod answer;
mod command;
mod kind;
mod line;

pub use answer::{ANSWER_LENGTH, Answer};
pub use command::Command;
pub use kind::Kind;
pub use line::{FRAME_LENGTH, Fields, cut, decode, interpret};

// The memory mapper: page words, and where a CPU address leads.
#![tactic(auto)]

mod table;
mod word;

pub use table::{Located, PageTable};
pub use word::{PageParts, Socket, join, split};

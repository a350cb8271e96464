// A pair: a layer that makes one device of any two.
#![tactic(auto)]

mod pair;

pub use pair::Pair;

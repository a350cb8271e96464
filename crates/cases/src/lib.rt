// Cases worked out by hand from the rules, for the engine on the program's board, for stacks of devices and for page words.
#![tactic(auto)]

#[cfg(test)]
mod devices;
#[cfg(test)]
mod lines;
#[cfg(test)]
mod page_words;
#[cfg(test)]
mod power_unit;
#[cfg(test)]
mod refusals;
#[cfg(test)]
mod session;
#[cfg(test)]
mod stacks;
#[cfg(test)]
mod trial;

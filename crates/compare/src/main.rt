// Compares the engine with a second implementation of the rules, on many lists of lines over many boards: the answer
// to each line, and every byte of every chip at the end. Then the engine is broken on purpose, which must be noticed.
#![tactic(auto)]

mod boards;
mod composer;
mod contest;
mod damage;
mod fault;
mod layers;
mod line;
mod parts;
mod pools;
mod random;
mod reply;
mod report;
mod script;
mod second;
mod shrink;
mod tally;

use anyhow::anyhow;
use boards::Setup;
use composer::Composer;
use contest::Trial;
use fault::{CauseKept, Fault, LostByte, Sound, WrongState};
use report::tell;
use second::Verdict;
use std::fmt;
use tally::Tally;

// The same seed writes the same lists.
const SEED: u64 = 1;

const LISTS: usize = 4_000;

// How many lists a fault has to go unnoticed.
const PATIENCE: usize = 200;

fn main(rt: HostRuntime) -> anyhow::Result<()> {
    run(&rt)
}

fn run(rt: &HostRuntime) -> anyhow::Result<()> {
    agree(rt)?;
    notice(rt, WrongState::default())?;
    notice(rt, LostByte::default())?;
    notice(rt, CauseKept::default())
}

// The engine as it is.
fn agree(rt: &HostRuntime) -> anyhow::Result<()> {
    let mut tally = Tally::new(rt.alloc())?;
    if find_difference(rt, Sound, LISTS, |verdicts| tally.add(verdicts))? {
        return Err(anyhow!("the engine and the second implementation differ"));
    }
    println!(rt; "{tally}")?;
    if tally.is_complete() {
        Ok(())
    } else {
        Err(anyhow!("something never came up"))
    }
}

// The engine with a fault: on some list it must differ.
fn notice<F: Fault + fmt::Display>(rt: &HostRuntime, fault: F) -> anyhow::Result<()> {
    println!(rt; "")?;
    println!(rt; "The engine with {fault}:")?;
    if find_difference(rt, fault, PATIENCE, |_| {})? {
        Ok(())
    } else {
        Err(anyhow!("the comparison did not notice"))
    }
}

// Whether there is a difference on any of so many lists. The first is told; the lists before it are handed to `agreed`.
fn find_difference<F: Fault, A: FnMut(&[Verdict])>(
    rt: &HostRuntime,
    fault: F,
    lists: usize,
    mut agreed: A,
) -> anyhow::Result<bool>
    requires { A.IsAlwaysCallable agreed }
{
    let heap = rt.alloc();
    let mut composer = Composer::new(heap, SEED)?;
    for list in 0..lists {
        let setup = Setup::drawn(list);
        let trial = Trial {
            setup: &setup,
            list,
            fault,
            lines: composer.compose(&setup)?,
        };
        let outcome = trial.run(heap)?;
        if let Some(difference) = outcome.difference() {
            tell(rt, &trial, difference)?;
            return Ok(true);
        }
        agreed(outcome.second.answers.as_slice());
    }
    Ok(false)
}

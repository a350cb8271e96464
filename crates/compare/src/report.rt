// A difference told in plain text: where it is, and the shortest list that shows it.
use crate::contest::{Difference, Trial};
use crate::fault::Fault;
use crate::reply::Reply;
use crate::shrink::shrink;

pub fn tell<F: Fault>(
    rt: &HostRuntime,
    trial: &Trial<F>,
    difference: Difference,
) -> anyhow::Result<()> {
    let Trial { setup, list, .. } = trial;
    let shape = setup.shape;
    let count = trial.lines.len();
    println!(rt; "List {list} of {count} lines, on {shape}:")?;
    println!(rt; "  {difference}")?;
    let shortest = shrink(rt.alloc(), trial)?;
    let trial = Trial {
        lines: shortest.as_slice(),
        ..*trial
    };
    let outcome = trial.run(rt.alloc())?;
    println!(rt; "The shortest list, with the answers of the engine and of the second:")?;
    let answers = outcome.engine.answers.iter().zip(&outcome.second.answers);
    for (line, (engine, verdict)) in trial.lines.iter().zip(answers) {
        let second = Reply::from(*verdict);
        let mark = if *engine == second { "" } else { "  <-" };
        println!(rt; "  {line}  {engine}  {second}{mark}")?;
    }
    if let Some(difference) = outcome.difference() {
        println!(rt; "  {difference}")?;
    }
    Ok(())
}

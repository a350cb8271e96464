// A list that shows a difference, made as short as can be.
ghost use Rattle.std.specs.Prelude.{◌<◌};

use crate::contest::Trial;
use crate::fault::Fault;
use crate::line::Line;
use std::alloc::{AllocError, Global};

// The shortest that leaving out lines leads to: without any one of its lines there is no difference.
pub fn shrink<F: Fault>(heap: Global, trial: &Trial<F>) -> Result<Vec<Line>, AllocError> {
    let count = trial.lines.len();
    let mut kept = Vec::new(heap);
    kept.extend_from_slice(trial.lines)?;
    // Counted: each run is half the one before, so there are fewer than a count has bits.
    for halvings in 1..usize::BITS {
        let run = count >> halvings;
        if run <= 1 {
            break;
        }
        kept = leave_out(heap, trial, kept.as_slice(), run)?;
    }
    // To leave out one line can make another one needless. Each turn but the last leaves out one at least.
    for _ in 0..count {
        let before = kept.len();
        kept = leave_out(heap, trial, kept.as_slice(), 1)?;
        if kept.len() == before {
            break;
        }
    }
    Ok(kept)
}

// The lines without each run of so many, from the front on, that is not needed for a difference.
fn leave_out<F: Fault>(
    heap: Global,
    trial: &Trial<F>,
    lines: &[Line],
    run: usize,
) -> Result<Vec<Line>, AllocError>
    requires { 0 < run }
{
    let mut needed = Vec::with_capacity(heap, lines.len())?;
    let mut rest = lines;
    for tried in lines.chunks(run) {
        rest = rest.get(tried.len()..).unwrap_or_default();
        let mut shorter = Vec::with_capacity(heap, lines.len())?;
        shorter.extend_from_slice(needed.as_slice())?;
        shorter.extend_from_slice(rest)?;
        let shorter = Trial {
            lines: shorter.as_slice(),
            ..*trial
        };
        if shorter.run(heap)?.difference().is_none() {
            needed.extend_from_slice(tried)?;
        }
    }
    Ok(needed)
}

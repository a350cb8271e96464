// The twelve digits of an answer, as either side spells them.
use crate::second::Verdict;
use frames::Answer;
use std::fmt;

// An answer without the end of its line.
const DIGITS: usize = 12;

#[derive(Clone, Copy, PartialEq)]
pub struct Reply {
    digits: [u8; DIGITS],
}

// The engine's, without the end of the line.
impl From<Answer> for Reply {
    fn from(answer: Answer) -> Reply {
        let spelled = answer.spell();
        let digits = spelled.first_chunk().copied().unwrap_or([b' '; DIGITS]);
        Reply { digits }
    }
}

// The second implementation's.
impl From<Verdict> for Reply {
    fn from(verdict: Verdict) -> Reply {
        Reply {
            digits: verdict.digits(),
        }
    }
}

impl fmt::Display for Reply {
    fn fmt<W: fmt::Write>(&self, f: &mut fmt::Formatter<W>) -> fmt::Result {
        for digit in self.digits.iter() {
            write!(f, "{}", char::from(*digit))?;
        }
        Ok(())
    }
}

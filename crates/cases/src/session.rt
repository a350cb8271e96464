// Sessions: what is given to one new engine, line by line, and what each line must be answered.
use super::trial::{Answers, Trial, on_board};
use frames::ANSWER_LENGTH;
use std::process::Abort;
use std::str::from_utf8;
use std::test::*;

#[derive(Clone, Copy)]
pub enum Row<'a> {
    // A line, and its answer.
    Line(&'a str, &'a str),
    // A line so many times running, each time answered so.
    Times(u32, &'a str, &'a str),
}

#[derive(Clone, Copy)]
pub struct Session<'a>(pub &'a [Row<'a>]);

// Room for an answer to every byte of a frame and to its end.
const ROOM: usize = ANSWER_LENGTH * 13;

// Plays each session on a board of its own.
pub(crate) fn play_all(rt: &impl Abort, sessions: &[Session]) -> Result<(), Fail> {
    for session in sessions {
        on_board(rt, *session)?;
    }
    Ok(())
}

impl Trial for Session<'_> {
    fn run(self, rt: &impl Abort, link: &mut impl Answers) -> Result<(), Fail> {
        for row in self.0 {
            hold_row(rt, link, *row)?;
        }
        Ok(())
    }
}

fn hold_row(rt: &impl Abort, link: &mut impl Answers, row: Row) -> Result<(), Fail> {
    let (times, line, answer) = match row {
        Row::Line(line, answer) => (1, line, answer),
        Row::Times(times, line, answer) => (times, line, answer),
    };
    for _ in 0..times {
        hold(rt, link, line, answer)?;
    }
    Ok(())
}

fn hold(rt: &impl Abort, link: &mut impl Answers, line: &str, answer: &str) -> Result<(), Fail> {
    let mut out = [0; ROOM];
    // An answer before the line's end would leave an empty line to answer at its end.
    link.answer(line.as_bytes(), &mut out);
    let n = link.answer(b"\n", &mut out);
    let found = from_utf8(&out[0..n])?;
    assert_eq!(rt; found.trim_end(), answer, "{line}");
    Ok(())
}

// How often each thing came up, by what the second implementation says of each line.
use crate::second::stack::PowerLine;
use crate::second::{Cause, Kind, Refusal, State, Verdict, Waker};
use std::alloc::{AllocError, Global};
use std::fmt;

#[derive(Drop)]
pub struct Tally {
    lists: u64,
    lines: u64,
    kinds: Table<Kind>,
    // None where the line was taken.
    numbers: Table<Option<Refusal>>,
    states: Table<State>,
    causes: Table<Cause>,
    wakers: Table<Waker>,
    losses: Table<PowerLine>,
}

// The things of one sort, and how often each came up.
#[derive(Drop)]
struct Table<T> {
    title: &'static str,
    rows: Vec<Row<T>>,
}

#[derive(Clone, Copy)]
struct Row<T> {
    thing: T,
    name: &'static str,
    count: u64,
}

const KINDS: [(Kind, &str); 14] = [
    (Kind::Reset, "reset"),
    (Kind::RegisterWrite, "register write"),
    (Kind::RegisterRead, "register read"),
    (Kind::PageWrite, "page write"),
    (Kind::PageRead, "page read"),
    (Kind::CpuWrite, "CPU write"),
    (Kind::CpuRead, "CPU read"),
    (Kind::Tick, "tick"),
    (Kind::Activity, "activity"),
    (Kind::Ext, "EXT"),
    (Kind::Ring, "ring"),
    (Kind::Alarm, "alarm"),
    (Kind::Battery, "battery warning"),
    (Kind::Ac, "AC"),
];

const NUMBERS: [(Option<Refusal>, &str); 14] = [
    (None, "00 taken"),
    (Some(Refusal::NoFrame), "01 not a frame"),
    (Some(Refusal::UnknownKind), "02 unknown kind"),
    (Some(Refusal::UnusedField), "03 unused field not 0"),
    (Some(Refusal::LargeValue), "04 v too large"),
    (Some(Refusal::LargeAddress), "05 a too large"),
    (Some(Refusal::Asleep), "06 asleep"),
    (Some(Refusal::FixedRegister), "07 register not writable"),
    (Some(Refusal::UnmappedPage), "08 page not mapped"),
    (Some(Refusal::ReadOnlyPage), "09 page read-only"),
    (Some(Refusal::NoPower), "0A socket unpowered"),
    (Some(Refusal::NoPlace), "0B no such place"),
    (Some(Refusal::WriteProtected), "0C write-protected"),
    (Some(Refusal::CausePending), "0D cause pending"),
];

const STATES: [(State, &str); 5] = [
    (State::On, "On"),
    (State::Doze, "Doze"),
    (State::Sleep, "Sleep"),
    (State::Suspend, "Suspend"),
    (State::Off, "Off"),
];

const CAUSES: [(Cause, &str); 7] = [
    (Cause::Doze, "D0 doze"),
    (Cause::Sleep, "D1 sleep"),
    (Cause::Suspend, "D2 suspend"),
    (Cause::Ext, "D3 EXT"),
    (Cause::Battery, "D4 battery"),
    (Cause::Violation, "D5 violation"),
    (Cause::Activity, "D6 activity"),
];

const WAKERS: [(Waker, &str); 4] = [
    (Waker::Reset, "reset"),
    (Waker::Press, "clean press"),
    (Waker::Ring, "programmed ring"),
    (Waker::Alarm, "alarm"),
];

// By the power line that fell.
const LOSSES: [(PowerLine, &str); 3] = [
    (PowerLine::Ram, "D1 RAM"),
    (PowerLine::Rom, "D2 ROM"),
    (PowerLine::Cards, "D3 both cards"),
];

impl Tally {
    pub fn new(heap: Global) -> Result<Tally, AllocError> {
        Ok(Tally {
            lists: 0,
            lines: 0,
            kinds: Table::new(heap, "Kinds of frames", &KINDS)?,
            numbers: Table::new(heap, "Numbers answered", &NUMBERS)?,
            states: Table::new(heap, "States after a line", &STATES)?,
            causes: Table::new(heap, "Causes that arose", &CAUSES)?,
            wakers: Table::new(heap, "What ended Suspend and Off", &WAKERS)?,
            losses: Table::new(heap, "Power lines that fell", &LOSSES)?,
        })
    }

    // Takes in a whole list.
    pub fn add(&mut self, verdicts: &[Verdict]) {
        self.lists = self.lists.saturating_add(1);
        for verdict in verdicts {
            self.add_line(verdict);
        }
    }

    fn add_line(&mut self, verdict: &Verdict) {
        self.lines = self.lines.saturating_add(1);
        self.kinds.count(|kind| verdict.kind == Some(kind));
        self.numbers
            .count(|refusal| verdict.outcome.err() == refusal);
        self.states.count(|state| verdict.state == state);
        self.causes.count(|cause| verdict.arose == Some(cause));
        self.wakers.count(|waker| verdict.woke == Some(waker));
        self.losses.count(|line| verdict.cuts_power(line));
    }

    // Whether each thing came up at least once.
    pub fn is_complete(&self) -> bool {
        self.kinds.is_complete()
            && self.numbers.is_complete()
            && self.states.is_complete()
            && self.causes.is_complete()
            && self.wakers.is_complete()
            && self.losses.is_complete()
    }
}

impl fmt::Display for Tally {
    fn fmt<W: fmt::Write>(&self, f: &mut fmt::Formatter<W>) -> fmt::Result {
        let Tally {
            lists,
            lines,
            kinds,
            numbers,
            states,
            causes,
            wakers,
            losses,
        } = self;
        write!(f, "{kinds}{numbers}{states}{causes}{wakers}{losses}")?;
        write!(f, "{lists} lists, {lines} lines agreed")
    }
}

impl<T: Copy> Table<T> {
    fn new(
        heap: Global,
        title: &'static str,
        names: &[(T, &'static str)],
    ) -> Result<Table<T>, AllocError> {
        let rows = names
            .iter()
            .map(|(thing, name)| Row {
                thing: *thing,
                name: *name,
                count: 0,
            })
            .collect(heap)?;
        Ok(Table { title, rows })
    }

    // Counts each thing that came up.
    fn count<F: Fn(T) -> bool>(&mut self, came_up: F)
        requires { F.IsAlwaysCallable came_up }
    {
        for row in self.rows.iter_mut() {
            if came_up(row.thing) {
                row.count = row.count.saturating_add(1);
            }
        }
    }

    fn is_complete(&self) -> bool {
        self.rows.iter().all(|row| row.count > 0)
    }
}

impl<T> fmt::Display for Table<T> {
    fn fmt<W: fmt::Write>(&self, f: &mut fmt::Formatter<W>) -> fmt::Result {
        writeln!(f, "{}:", self.title)?;
        for Row { name, count, .. } in self.rows.iter() {
            let mark = if *count == 0 { "  never came up" } else { "" };
            writeln!(f, "  {name:<26}{count:>8}{mark}")?;
        }
        Ok(())
    }
}

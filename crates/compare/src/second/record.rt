// A line of the past, and what it shows when one looks back at it.

use super::answer::Verdict;
use super::frame::Action;
use super::page::{Address, PageWord};
use super::stack::{Place, PowerLine};
use super::words::{Cause, Input, Register, State, Stored};

// What became of a line.
#[derive(Clone, Copy)]
pub enum Deed {
    // Refused, and nothing is left of it.
    Nothing,
    // A write refused at this address, which is noted.
    Violation(Address),
    Taken(Action),
}

// A line of the past, and what it did.
#[derive(Clone, Copy)]
pub struct Record {
    pub deed: Deed,
    pub verdict: Verdict,
    // Whether the line set the idle counter to the load of the state after it.
    pub restarts_counter: bool,
    // The byte of the flat list that the line wrote.
    pub written: Option<usize>,
}

impl Deed {
    // Whether no cause is pending after the line, whatever was before.
    pub fn clears_causes(&self) -> bool {
        matches!(
            self,
            Deed::Taken(Action::Reset | Action::ReadRegister(Register::Causes))
        )
    }
}

impl Record {
    // The byte of the flat list that the line wrote, and what it wrote there.
    pub fn write(&self) -> Option<(usize, u8)> {
        match self.deed {
            Deed::Taken(Action::WriteByte { value, .. }) => {
                self.written.map(|byte| (byte, value))
            }
            _ => None,
        }
    }

    // What the line leaves in a register, if it sets it.
    pub fn register(&self, wanted: Stored) -> Option<u8> {
        match self.deed {
            Deed::Taken(Action::WriteRegister { register, value }) if register == wanted => {
                Some(value)
            }
            Deed::Taken(Action::Reset) => Some(wanted.after_reset()),
            _ => None,
        }
    }

    // Whether the line leaves an input high, if it sets it.
    pub fn level(&self, wanted: Input) -> Option<bool> {
        match self.deed {
            Deed::Taken(Action::Level { input, is_high }) if input == wanted => Some(is_high),
            Deed::Taken(Action::Reset) => Some(false),
            _ => None,
        }
    }

    pub fn page(&self, wanted: u32) -> Option<PageWord> {
        match self.deed {
            Deed::Taken(Action::WritePage { page, word }) if page == wanted => Some(word),
            Deed::Taken(Action::Reset) => Some(PageWord::after_reset(wanted)),
            _ => None,
        }
    }

    pub fn violation(&self) -> Option<Address> {
        match self.deed {
            Deed::Violation(address) => Some(address),
            Deed::Taken(Action::Reset) => Some(Address::NONE),
            _ => None,
        }
    }

    // What the line leaves in a place supplied by a power line, if it sets it.
    pub fn byte(&self, place: Place, line: PowerLine) -> Option<u8> {
        match self.deed {
            Deed::Taken(Action::WriteByte { value, .. }) if self.written == Some(place.byte) => {
                Some(value)
            }
            _ if place.is_volatile && self.verdict.cuts_power(line) => Some(0xFF),
            _ => None,
        }
    }

    // Whether the line leaves the idle counter free to fall in a state, if it decides that.
    pub fn frees_counter(&self, state: State) -> Option<bool> {
        match state {
            State::On => self.level(Input::Ac).map(|is_high| !is_high),
            State::Sleep => self
                .register(Stored::Mask)
                .map(|mask| mask & Cause::Suspend.bit() == 0),
            State::Doze | State::Suspend | State::Off => None,
        }
    }

    pub fn is_tick(&self) -> bool {
        matches!(self.deed, Deed::Taken(Action::Tick))
    }

    pub fn falls_asleep(&self) -> bool {
        matches!(
            self.deed,
            Deed::Taken(Action::WriteState(State::Suspend | State::Off))
        )
    }
}

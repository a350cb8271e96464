// The lines so far, and what looking back over them shows.

use super::frame::Action;
use super::page::{Address, PageWord};
use super::record::{Deed, Record};
use super::stack::{Outputs, Place, PowerLine};
use super::words::{Cause, Input, State, Stored};
use std::alloc::{AllocError, Global};

// The lines so far. Before the first, all is as after a reset.
#[derive(Drop)]
pub struct Past {
    records: Vec<Record>,
}

impl Past {
    pub fn new(heap: Global) -> Past {
        Past {
            records: Vec::new(heap),
        }
    }

    pub fn push(&mut self, record: Record) -> Result<(), AllocError> {
        self.records.push(record).map_err(AllocError::from)
    }

    pub fn records(&self) -> &[Record] {
        self.records.as_slice()
    }

    pub fn state(&self) -> State {
        self.records
            .last()
            .map_or(State::On, |record| record.verdict.state)
    }

    pub fn outputs(&self) -> Outputs {
        self.records
            .last()
            .map_or(Outputs::AFTER_RESET, |record| record.verdict.outputs)
    }

    pub fn register(&self, wanted: Stored) -> u8 {
        register_after(self.records(), wanted)
    }

    pub fn masks(&self, cause: Cause) -> bool {
        self.register(Stored::Mask) & cause.bit() != 0
    }

    pub fn is_high(&self, input: Input) -> bool {
        self.records
            .iter()
            .rev()
            .find_map(|record| record.level(input))
            .unwrap_or(false)
    }

    pub fn page(&self, page: u32) -> PageWord {
        self.records
            .iter()
            .rev()
            .find_map(|record| record.page(page))
            .unwrap_or(PageWord::after_reset(page))
    }

    // The address of the last violation.
    pub fn violation(&self) -> Address {
        self.records
            .iter()
            .rev()
            .find_map(|record| record.violation())
            .unwrap_or(Address::NONE)
    }

    // What was last left in a place that a power line supplies, if anything was.
    pub fn byte(&self, place: Place, line: PowerLine) -> Option<u8> {
        self.records
            .iter()
            .rev()
            .find_map(|record| record.byte(place, line))
    }

    // The bits of the causes that arose since they were last cleared.
    pub fn causes(&self) -> u8 {
        self.records
            .iter()
            .rev()
            .take_while(|record| !record.deed.clears_causes())
            .filter_map(|record| record.verdict.arose)
            .fold(0, |bits, cause| bits | cause.bit())
    }

    pub fn is_cause_pending(&self) -> bool {
        self.records
            .iter()
            .rev()
            .take_while(|record| !record.deed.clears_causes())
            .any(|record| record.verdict.arose.is_some())
    }

    // Whether EXT, going high now, is a clean press: it was low at both of the last two ticks, with
    // neither a rise nor a reset after the older one.
    pub fn is_clean_press(&self) -> bool {
        let mut has_one_tick = false;
        let mut has_two_ticks = false;
        for record in self.records.iter().rev() {
            match record.deed {
                Deed::Taken(Action::Tick) => {
                    has_two_ticks = has_one_tick;
                    has_one_tick = true;
                }
                Deed::Taken(
                    Action::Level {
                        input: Input::Ext,
                        is_high,
                    },
                ) => {
                    // EXT is high already, or was so after the older of the two ticks, or at it.
                    if is_high {
                        return false;
                    }
                    // EXT fell before both ticks, and stayed low.
                    if has_two_ticks {
                        return true;
                    }
                }
                Deed::Taken(Action::Reset) => return has_two_ticks,
                _ => {}
            }
        }
        has_two_ticks
    }

    // How many times the ring has risen since the engine fell asleep, now included; or none if it
    // is high already, and so does not rise by going high.
    pub fn ring_rises(&self) -> Option<u8> {
        if self.is_high(Input::Ring) {
            return None;
        }
        // A high level counts once the level before it is found low, even if that one is older than
        // the sleep.
        let mut rises = 0u8;
        let mut is_high_next = true;
        let mut is_asleep = true;
        for record in self.records.iter().rev() {
            if let Some(is_high) = record.level(Input::Ring) {
                if is_high_next && !is_high {
                    rises = rises.saturating_add(1);
                }
                is_high_next = is_high && is_asleep;
            }
            if record.falls_asleep() {
                is_asleep = false;
            }
            if !is_asleep && !is_high_next {
                return Some(rises);
            }
        }
        if is_high_next {
            rises = rises.saturating_add(1);
        }
        Some(rises)
    }

    // Whether a tick now brings the idle counter to 0: as many ticks as it was last set to, this one
    // included, have found it free to fall.
    pub fn runs_out(&self) -> bool {
        let state = self.state();
        let Some(load) = state.load() else {
            return false;
        };
        let start = self
            .records
            .iter()
            .rposition(|record| record.restarts_counter)
            .map_or(0, |index| index.saturating_add(1));
        let (before, since) = self.records.split_at(start);
        let steps = 32 * u32::from(register_after(before, load));
        if steps == 0 {
            return false;
        }
        let mut is_free = is_counter_free(before, state);
        let mut fallen = 0u32;
        for record in since {
            if record.is_tick() && is_free {
                fallen = fallen.saturating_add(1);
            }
            is_free = record.frees_counter(state).unwrap_or(is_free);
        }
        is_free && fallen.saturating_add(1) == steps
    }
}

fn register_after(records: &[Record], wanted: Stored) -> u8 {
    records
        .iter()
        .rev()
        .find_map(|record| record.register(wanted))
        .unwrap_or(wanted.after_reset())
}

// Whether the idle counter is free to fall in a state, after some first lines.
fn is_counter_free(records: &[Record], state: State) -> bool {
    match state {
        State::On | State::Sleep => records
            .iter()
            .rev()
            .find_map(|record| record.frees_counter(state))
            .unwrap_or(state == State::On),
        State::Doze => true,
        State::Suspend | State::Off => false,
    }
}

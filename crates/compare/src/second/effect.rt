// What a taken line does.

use super::past::Past;
use super::stack::Outputs;
use super::words::{Cause, Input, Register, State, Stored, Waker};

// What a line answers and leaves behind.
#[derive(Clone, Copy)]
pub struct Effect {
    pub value: u16,
    pub state: State,
    pub outputs: Outputs,
    pub arose: Option<Cause>,
    pub woke: Option<Waker>,
    // Whether the idle counter is set to the load of the state after the line.
    pub restarts_counter: bool,
    // The byte of the flat list that is written.
    pub written: Option<usize>,
}

impl Effect {
    pub fn none(past: &Past) -> Effect {
        Effect {
            value: 0,
            state: past.state(),
            outputs: past.outputs(),
            arose: None,
            woke: None,
            restarts_counter: false,
            written: None,
        }
    }

    pub fn answer(past: &Past, value: u16) -> Effect {
        Effect {
            value,
            ..Effect::none(past)
        }
    }

    pub fn write(past: &Past, byte: usize) -> Effect {
        Effect {
            written: Some(byte),
            ..Effect::none(past)
        }
    }

    pub fn enter(past: &Past, state: State) -> Effect {
        Effect {
            state,
            outputs: outputs_in(past, state),
            restarts_counter: true,
            ..Effect::none(past)
        }
    }

    // The cause arises unless it is masked.
    pub fn raise(past: &Past, cause: Cause) -> Effect {
        Effect {
            arose: (!past.masks(cause)).then_some(cause),
            ..Effect::none(past)
        }
    }

    fn wake(past: &Past, waker: Waker) -> Effect {
        Effect {
            woke: Some(waker),
            ..Effect::enter(past, State::On)
        }
    }

    fn restart_counter(past: &Past) -> Effect {
        Effect {
            restarts_counter: true,
            ..Effect::none(past)
        }
    }

    fn raise_activity(past: &Past) -> Effect {
        // Activity is the one cause that no mask stops.
        Effect {
            arose: Some(Cause::Activity),
            ..Effect::none(past)
        }
    }
}

pub fn reset(past: &Past) -> Effect {
    Effect {
        state: State::On,
        outputs: Outputs::AFTER_RESET,
        woke: (!past.state().is_awake()).then_some(Waker::Reset),
        restarts_counter: true,
        ..Effect::none(past)
    }
}

pub fn write_register(past: &Past, register: Stored, value: u8) -> Effect {
    let before = Effect::none(past);
    Effect {
        outputs: if before.state.output_register() == Some(register) {
            Outputs(value)
        } else {
            before.outputs
        },
        restarts_counter: before.state.load() == Some(register),
        ..before
    }
}

pub fn read_register(past: &Past, register: Register) -> Effect {
    let value = match register {
        Register::State => past.state() as u8,
        Register::Stored(stored) => past.register(stored),
        Register::Causes => past.causes(),
        Register::ViolationLow => past.violation().low(),
        Register::ViolationMiddle => past.violation().middle(),
        Register::ViolationHigh => past.violation().high(),
        Register::Outputs => past.outputs().0,
    };
    Effect::answer(past, u16::from(value))
}

pub fn tick(past: &Past) -> Effect {
    if !past.runs_out() {
        return Effect::none(past);
    }
    match past.state() {
        State::On if past.masks(Cause::Doze) => Effect::enter(past, State::Doze),
        State::On => Effect::raise(past, Cause::Doze),
        State::Doze if past.masks(Cause::Sleep) => Effect::enter(past, State::Sleep),
        State::Doze => Effect::raise(past, Cause::Sleep),
        State::Sleep => Effect::raise(past, Cause::Suspend),
        State::Suspend | State::Off => Effect::none(past),
    }
}

pub fn activity(past: &Past, source_bit: u8) -> Effect {
    let state = past.state();
    if !state.is_awake() || past.register(Stored::ActivityMask) & source_bit != 0 {
        return Effect::none(past);
    }
    match state {
        State::On => Effect::restart_counter(past),
        State::Doze if past.masks(Cause::Doze) => Effect::enter(past, State::On),
        State::Sleep if past.masks(Cause::Sleep) => Effect::enter(past, State::On),
        State::Doze | State::Sleep => Effect::raise_activity(past),
        State::Suspend | State::Off => Effect::none(past),
    }
}

// An input is high now.
pub fn go_high(past: &Past, input: Input) -> Effect {
    let is_awake = past.state().is_awake();
    match input {
        Input::Ext if past.is_clean_press() => {
            if is_awake {
                Effect::raise(past, Cause::Ext)
            } else {
                Effect::wake(past, Waker::Press)
            }
        }
        Input::Ring if !is_awake && past.ring_rises() == Some(ring_count(past)) => {
            Effect::wake(past, Waker::Ring)
        }
        Input::Battery if is_awake && !past.is_high(Input::Battery) => {
            Effect::raise(past, Cause::Battery)
        }
        Input::Ext | Input::Ring | Input::Battery | Input::Ac => Effect::none(past),
    }
}

pub fn alarm(past: &Past) -> Effect {
    let is_enabled = past.register(Stored::Wake) & 0x08 != 0;
    if is_enabled && !past.state().is_awake() {
        Effect::wake(past, Waker::Alarm)
    } else {
        Effect::none(past)
    }
}

// The rise of the ring that wakes the engine, or 0 where none does.
fn ring_count(past: &Past) -> u8 {
    past.register(Stored::Wake) & 0x07
}

fn outputs_in(past: &Past, state: State) -> Outputs {
    state
        .output_register()
        .map_or(Outputs::NONE, |register| Outputs(past.register(register)))
}

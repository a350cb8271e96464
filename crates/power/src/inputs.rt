// What a tick or an input does, by the state that it meets.
ghost use Rattle.std.specs.Prelude.{◌≡◌, false, not, ◌&&◌, if◌then◌else◌};
ghost use Rattle.registers.specs.States.{asleep};
ghost use Rattle.power.specs.Inputs.{sampled, held, expired, counted, stirred, active, pressed, ext_given, ring_given, battery_given, ticked, happened};
ghost use Rattle.registers.specs.Registers.{bit};
ghost use Rattle.power.specs.Power.{mask, entered};
ghost use Rattle.power.specs.Causes.{position, raised};
ghost use Rattle.power.specs.View.{view};

use super::commands::bit;
use super::{Cause, PowerUnit};
use registers::{Event, Register, State};
use std::mem::replace;

impl PowerUnit {
    pub fn apply(&mut self, event: Event)
        ensures { view self.new ≡ happened event (view self.old) }
    {
        match (self.state, event) {
            (_, Event::Tick) => self.tick(),
            (_, Event::Ext(level)) => self.follow_ext(level),
            (_, Event::Ring(level)) => self.follow_ring(level),
            (_, Event::Battery(level)) => self.follow_battery(level),
            (_, Event::Ac(level)) => self.ac = level,
            (_, Event::Activity(source)) => {
                if !bit(source.number(), self.get(Register::ActivityMask)) {
                    self.wake_or_reload();
                }
            }
            (State::Suspend | State::Off, Event::Alarm) => {
                if bit(3, self.get(Register::Wake)) {
                    self.enter(State::On);
                }
            }
            (_, Event::Alarm) => {}
        }
    }

    fn tick(&mut self)
        ensures { view self.new ≡ ticked (view self.old) }
    {
        self.sample_ext();
        self.count_down();
    }

    // A counter above 0 falls by one, unless it stands still.
    fn count_down(&mut self)
        ensures { view self.new ≡ counted (view self.old) }
    {
        if self.idle == 0 || self.is_held() {
            return;
        }
        self.idle -= 1;
        if self.idle == 0 {
            self.expire();
        }
    }

    fn sample_ext(&mut self)
        ensures { view self.new ≡ sampled (view self.old) }
    {
        if self.ext {
            self.low = 0;
        } else if self.low < 2 {
            self.low += 1;
        }
    }

    // Whether the idle counter stands still.
    fn is_held(&self) -> bool
        ensures { result ≡ held self.now.state (view self.now) }
    {
        match self.state {
            State::On => self.ac,
            State::Sleep => self.masks(Cause::Suspend),
            State::Doze | State::Suspend | State::Off => false,
        }
    }

    // The idle counter has run out.
    fn expire(&mut self)
        ensures { view self.new ≡ expired self.old.state (view self.old) }
    {
        match self.state {
            State::On => self.enter_or_raise(Cause::Doze, State::Doze, Cause::Doze),
            State::Doze => self.enter_or_raise(Cause::Sleep, State::Sleep, Cause::Sleep),
            State::Sleep => self.raise(Cause::Suspend),
            State::Suspend | State::Off => {}
        }
    }

    // The state is entered where the cause `led_here` is masked; where it is not, the other cause is given.
    fn enter_or_raise(&mut self, led_here: Cause, next: State, cause: Cause)
        requires { (asleep self.old.state ≡ false) × (asleep next ≡ false) }
        ensures { view self.new ≡ (if bit (position led_here) (mask (view self.old)) then entered next (view self.old) else raised cause (view self.old)) }
    {
        if self.masks(led_here) {
            self.enter(next);
        } else {
            self.raise(cause);
        }
    }

    // Activity from a source that is not ignored. In Doze and Sleep the cause that led there decides.
    fn wake_or_reload(&mut self)
        ensures { view self.new ≡ active self.old.state (view self.old) }
    {
        match self.state {
            State::On => self.reload(),
            State::Doze => self.enter_or_raise(Cause::Doze, State::On, Cause::Activity),
            State::Sleep => self.enter_or_raise(Cause::Sleep, State::On, Cause::Activity),
            State::Suspend | State::Off => {}
        }
    }

    fn follow_ext(&mut self, level: bool)
        ensures { view self.new ≡ ext_given level (view self.old) }
    {
        let rises = take_level(&mut self.ext, level);
        let clean = rises && self.low == 2;
        if rises {
            self.low = 0;
        }
        if clean {
            self.press();
        }
    }

    // A clean press.
    fn press(&mut self)
        ensures { view self.new ≡ pressed (view self.old) }
    {
        match self.state {
            State::On | State::Doze | State::Sleep => self.raise(Cause::Ext),
            State::Suspend | State::Off => self.enter(State::On),
        }
    }

    fn follow_ring(&mut self, level: bool)
        ensures { view self.new ≡ ring_given level (view self.old) }
    {
        let rises = take_level(&mut self.ring, level);
        let count = self.get(Register::Wake) % 8;
        if !rises || !self.state.asleep() || count == 0 {
            return;
        }
        let edges = self.edges + 1;
        if edges >= count {
            self.edges = 0;
            self.enter(State::On);
        } else {
            self.edges = edges;
        }
    }

    fn follow_battery(&mut self, level: bool)
        ensures { view self.new ≡ battery_given level (view self.old) }
    {
        let rises = take_level(&mut self.battery, level);
        if rises && !self.state.asleep() {
            self.raise(Cause::Battery);
        }
    }
}

// Takes an input's level in the place of the one last given, and tells whether it rises.
fn take_level(last: &mut bool, level: bool) -> bool
    ensures rise { result ≡ (level && not last.old) }
    ensures level { last.new ≡ level }
{
    !replace(last, level) && level
}

// What the unit shows: its state, its power lines, its interrupt.
ghost use Rattle.std.specs.Prelude.{◌≡◌};
ghost use Rattle.power.specs.Power.{outputs};
ghost use Rattle.power.specs.Causes.{interrupts};
ghost use Rattle.power.specs.View.{view};

use super::PowerUnit;
use registers::{Register, State};

impl PowerUnit {
    pub fn state(&self) -> State
        ensures { result ≡ (view self.now).state }
    {
        self.state
    }

    // The power lines: D0 the LCD, D1 RAM, D2 ROM, D3 both cards, D4 to D7 general.
    pub fn outputs(&self) -> u8
        ensures { result ≡ outputs (view self.now) }
    {
        match self.state {
            State::On => self.get(Register::OnOutputs),
            State::Doze => self.get(Register::DozeOutputs),
            State::Sleep => self.get(Register::SleepOutputs),
            State::Suspend => self.get(Register::SuspendOutputs),
            State::Off => 0,
        }
    }

    // Whether a cause is pending.
    pub fn interrupts(&self) -> bool
        ensures { result ≡ interrupts (view self.now) }
    {
        self.get(Register::Cause) != 0
    }
}

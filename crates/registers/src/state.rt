// The states of the machine's power. On, Doze and Sleep are awake.
ghost use Rattle.std.specs.Prelude.{◌≡◌, if◌then◌else◌, Ok, Err, nat_lt};
ghost use Rattle.std.specs.Option.{option_map};
ghost use Rattle.registers.specs.States.{state_number, state_of, asleep, load_index, is_load};
ghost use Rattle.registers.specs.Registers.{index};
ghost use Rattle.terms.specs.declared.refusal.Refusal.TheVariants.{ValueTooLarge};

use super::Register;
use terms::Refusal;

#[derive(Clone, Copy, Debug, PartialEq, Eq)]
pub enum State {
    On = 0,
    Doze = 1,
    Sleep = 2,
    Suspend = 3,
    Off = 4,
}

// The state of that number, if there is one.
impl TryFrom<u8> for State {
    type Error = Refusal;

    ghost try_from_gives = { λ number r. r ≡ (if nat_lt number 5 then Ok (state_of number) else Err ValueTooLarge) };

    fn try_from(number: u8) -> Result<Self, Refusal> {
        match number {
            0 => Ok(State::On),
            1 => Ok(State::Doze),
            2 => Ok(State::Sleep),
            3 => Ok(State::Suspend),
            4 => Ok(State::Off),
            _ => Err(Refusal::ValueTooLarge),
        }
    }
}

impl State {
    // A method and no `From`: its name says what the byte is.
    pub fn number(self) -> u8
        ensures { result ≡ state_number self }
    {
        self as u8
    }

    pub fn asleep(self) -> bool
        ensures { result ≡ asleep self }
    {
        match self {
            State::On | State::Doze | State::Sleep => false,
            State::Suspend | State::Off => true,
        }
    }

    // The register that holds this state's load; Suspend and Off have none.
    pub fn load(self) -> Option<Register>
        ensures { option_map index result ≡ load_index self }
    {
        match self {
            State::On => Some(Register::DozeLoad),
            State::Doze => Some(Register::SleepLoad),
            State::Sleep => Some(Register::SuspendLoad),
            State::Suspend | State::Off => None,
        }
    }

    // Whether the register holds this state's load.
    pub fn has_load(self, register: Register) -> bool
        ensures { result ≡ is_load self (index register) }
    {
        self.load() == Some(register)
    }
}

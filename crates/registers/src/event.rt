// What reaches the power unit from outside, besides commands.
ghost use Rattle.std.specs.Prelude.{◌≡◌, ◌<◌, if◌then◌else◌, Ok, Err, nat_lt};
ghost use Rattle.terms.specs.Results.{ok_map};
ghost use Rattle.terms.specs.declared.refusal.Refusal.TheVariants.{IndexTooLarge};

use terms::Refusal;

// One of the eight sources of activity; ACTMASK has a bit for each. A struct of its own, so that no other number is taken
// for it.
#[derive(Clone, Copy, Debug, PartialEq, Eq)]
pub struct Source {
    number: u8,
    ghost fits: { number < 8 },
}

// The source of that number, if there is one.
impl TryFrom<u32> for Source {
    type Error = Refusal;

    ghost try_from_gives = { λ number r. ok_map (λ s. s.number) r ≡ (if nat_lt number 8 then Ok number else Err IndexTooLarge) };

    fn try_from(number: u32) -> Result<Self, Refusal> {
        if number < 8 {
            Ok(Source {
                number: number as u8,
            })
        } else {
            Err(Refusal::IndexTooLarge)
        }
    }
}

impl Source {
    pub fn number(self) -> u8
        ensures { result ≡ self.number }
    {
        self.number
    }
}

#[derive(Clone, Copy, Debug, PartialEq, Eq)]
pub enum Event {
    // One sample at 32 Hz.
    Tick,
    Activity(Source),
    // The level of the EXT button.
    Ext(bool),
    // The level of the telephone's ring line.
    Ring(bool),
    Alarm,
    // The level of the battery warning.
    Battery(bool),
    // The level of the mains supply.
    Ac(bool),
}

// A place: one byte's position within the device in a socket, 26 bits.
// A struct of its own beside the CPU address, though the two differ in little more than their limit: neither is taken for
// the other.
ghost use Rattle.std.specs.Prelude.{◌≡◌, ◌<◌, if◌then◌else◌, Ok, Err, nat_lt};
ghost use Rattle.terms.specs.Limits.{places};
ghost use Rattle.terms.specs.Results.{ok_map};
ghost use Rattle.terms.specs.declared.refusal.Fault.TheVariants.{NoSuchPlace};

use super::Fault;

// The most places that a device can have.
pub const PLACES: u32 = 67_108_864;

// The bytes of a page, of CPU addresses and of a device alike.
pub const PAGE_SIZE: u32 = 16_384;

#[derive(Clone, Copy, Debug, PartialEq, Eq)]
pub struct Place {
    index: u32,
    ghost fits: { index < places },
}

// The place of that index, if a device can have so many.
impl TryFrom<u32> for Place {
    type Error = Fault;

    ghost try_from_gives = { λ index r. ok_map (λ p. p.index) r ≡ (if nat_lt index places then Ok index else Err NoSuchPlace) };

    fn try_from(index: u32) -> Result<Self, Fault> {
        if index < PLACES {
            Ok(Place { index })
        } else {
            Err(Fault::NoSuchPlace)
        }
    }
}

impl Place {
    pub fn index(self) -> u32
        ensures { result ≡ self.index }
    {
        self.index
    }
}

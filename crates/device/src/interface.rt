// What the engine asks of whatever stands in a socket.
ghost use Rattle.std.specs.Prelude.{◌≡◌, ◌≤◌, Bool};
ghost use Rattle.device.specs.Meaning.{Meaning, is_open, read_at, write_at, written, faded};
ghost use Rattle.terms.specs.Limits.{places};

use terms::{Fault, Place};

pub trait Device {
    ghost meaning: { Self → Meaning };

    // How many places it has. The bound is a clause here, and no law of the trait, which would ask more of a device.
    fn size(&self) -> u32
        ensures all { result ≡ (meaning self.now).size }
        ensures within { result ≤ places };

    // Whether the place exists and can be written.
    fn is_open(&self, place: Place) -> bool
        ensures { result ≡ is_open (meaning self.now) place.index };

    fn read(&self, place: Place) -> Result<u8, Fault>
        ensures { result ≡ read_at (meaning self.now) place.index };

    fn write(&mut self, place: Place, value: u8) -> Result<(), Fault>
        ensures answer { result ≡ write_at (meaning self.old) place.index }
        ensures after { meaning self.new ≡ written (meaning self.old) place.index value };

    // The power is lost: volatile places turn to FFh.
    fn lose_power(&mut self)
        ensures { meaning self.new ≡ faded (meaning self.old) };
}

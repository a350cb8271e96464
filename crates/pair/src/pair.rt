// Two devices side by side.
ghost use Rattle.std.specs.Prelude.{◌≡◌, ◌≤◌};
ghost use Rattle.pair.specs.Pair.{paired, Lies};
ghost use Rattle.terms.specs.Limits.{places};

use device::Device;
use terms::{Fault, PLACES, Place};

// A pair: two devices that are one, with its even places in the first and its odd places in the second.
#[derive(Debug, Drop)]
pub struct Pair<E, O> {
    even: E,
    odd: O,
}

// Which of the two devices, the pair's chips, has a place, and which place it is there.
// Each caller names both: a helper over closures would be one for `&self` and one for `&mut self`, for three callers, and
// one that picked a device for them would hand out a `dyn`.
enum Chip {
    Even(Place),
    Odd(Place),
}

impl<E: Device, O: Device> Pair<E, O> {
    pub fn new(even: E, odd: O) -> Pair<E, O>
        ensures even { result.even ≡ even }
        ensures odd { result.odd ≡ odd }
    {
        Pair { even, odd }
    }

    pub fn into_parts(self) -> (E, O)
        ensures even { result.0 ≡ self.even }
        ensures odd { result.1 ≡ self.odd }
    {
        (self.even, self.odd)
    }

    // The pair ends where its shorter chip ends. The bound is told again, for a pair owes it of its size.
    fn places(&self) -> u32
        ensures all { result ≡ (paired (E.Device.meaning self.now.even) (O.Device.meaning self.now.odd)).size }
        ensures within { result ≤ places }
    {
        let shorter = self.even.size().min(self.odd.size());
        (2 * shorter).min(PLACES)
    }

    fn locate(&self, place: Place) -> Result<Chip, Fault>
        ensures { Lies (paired (E.Device.meaning self.now.even) (O.Device.meaning self.now.odd)).size place.index result }
    {
        let index = place.index();
        if index >= self.places() {
            return Err(Fault::NoSuchPlace);
        }
        let half = Place::try_from(index / 2)?;
        if index % 2 == 0 {
            Ok(Chip::Even(half))
        } else {
            Ok(Chip::Odd(half))
        }
    }
}

impl<E: Device, O: Device> Device for Pair<E, O> {
    ghost meaning = { λ p. paired (E.Device.meaning p.even) (O.Device.meaning p.odd) };

    fn size(&self) -> u32 {
        self.places()
    }

    fn is_open(&self, place: Place) -> bool {
        match self.locate(place) {
            Ok(Chip::Even(half)) => self.even.is_open(half),
            Ok(Chip::Odd(half)) => self.odd.is_open(half),
            Err(_) => false,
        }
    }

    fn read(&self, place: Place) -> Result<u8, Fault> {
        match self.locate(place)? {
            Chip::Even(half) => self.even.read(half),
            Chip::Odd(half) => self.odd.read(half),
        }
    }

    fn write(&mut self, place: Place, value: u8) -> Result<(), Fault> {
        match self.locate(place)? {
            Chip::Even(half) => self.even.write(half, value),
            Chip::Odd(half) => self.odd.write(half, value),
        }
    }

    // The longer chip's bytes beyond the pair's end meet the loss too.
    fn lose_power(&mut self) {
        self.even.lose_power();
        self.odd.lose_power();
    }
}

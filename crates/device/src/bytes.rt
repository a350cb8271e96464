// A slice of bytes as the places of a device: its first bytes, as many as a device can have.
// The devices over bytes differ only in what can be written and what is kept, so what is read is told of backed RAM for all.
ghost use Rattle.std.specs.Prelude.{◌≡◌, ◌≤◌, length, take};
ghost use Rattle.device.specs.Kinds.{backed};
ghost use Rattle.device.specs.Meaning.{exists, read_at};
ghost use Rattle.device.specs.Sized.{fitting};
ghost use Rattle.terms.specs.Limits.{places};

use terms::{Fault, PLACES, Place};

// How many of the bytes are places. The bound is told again, for the devices over bytes owe it of their size.
#[tactic(auto, using(std::proofs::lemmas::List::take_min))]
pub fn size(bytes: &[u8]) -> u32
    ensures all { result ≡ fitting (length bytes.now) }
    ensures within { result ≤ places }
    ensures cut { take result bytes.now ≡ take places bytes.now }
{
    (PLACES as usize).min(bytes.len()) as u32
}

pub fn holds(bytes: &[u8], place: Place) -> bool
    ensures { result ≡ exists (backed bytes.now) place.index }
{
    (place.index() as usize) < bytes.len()
}

pub fn read(bytes: &[u8], place: Place) -> Result<u8, Fault>
    ensures { result ≡ read_at (backed bytes.now) place.index }
{
    bytes
        .get(place.index() as usize)
        .copied()
        .ok_or(Fault::NoSuchPlace)
}

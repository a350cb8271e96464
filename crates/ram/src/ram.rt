// RAM over the caller's bytes, with or without a battery: every place can be written.
ghost use Rattle.std.specs.Prelude.{◌≡◌, true, length, take, slice_set};
ghost use Rattle.ram.specs.Image.{load_at, loaded};
ghost use Rattle.device.specs.Kinds.{backed, uniform};
ghost use Rattle.device.specs.Meaning.{write_at};
ghost use Rattle.terms.specs.Limits.{places};

use device::{Device, bytes};
use terms::{Fault, Place};

// A RAM chip. Its type says whether it has a battery, which keeps every byte without power.
// A ghost field for the bound on its bytes is not to be had beside a bool parameter, so `size` cuts again what `new` cut.
#[derive(Debug, Drop)]
pub struct Chip<'a, const BACKED: bool> {
    bytes: &'a mut [u8],
}

// RAM without a battery: no place keeps its byte without power.
pub type Ram<'a> = Chip<'a, false>;

// RAM with a battery.
pub type BackedRam<'a> = Chip<'a, true>;

impl<'a, const BACKED: bool> Chip<'a, BACKED> {
    // Bytes beyond the places that a device can have are left out, so that nothing touches them.
    pub fn new(bytes: &'a mut [u8]) -> Chip<'a, BACKED>
        ensures { result.bytes.now ≡ take places bytes.old }
    {
        let size = bytes::size(bytes) as usize;
        Chip {
            bytes: &mut bytes[0..size],
        }
    }

    // Puts an image over the bytes from `start` on. It is for before the device goes into a socket.
    pub fn load(&mut self, start: usize, image: &[u8]) -> Result<(), Fault>
        ensures answer { result ≡ load_at (length self.old.bytes.now) start (length image.now) }
        ensures after { self.new.bytes.now ≡ loaded self.old.bytes.now start image.now }
    {
        let end = start.checked_add(image.len()).ok_or(Fault::NoSuchPlace)?;
        if end > self.bytes.len() {
            return Err(Fault::NoSuchPlace);
        }
        let places = &mut self.bytes[start..];
        places[0..image.len()].copy_from_slice(image);
        Ok(())
    }

    pub fn into_bytes(self) -> &'a mut [u8]
        ensures { result.now ≡ self.entry.bytes.now }
    {
        let Chip { bytes } = self;
        bytes
    }
}

impl<const BACKED: bool> Device for Chip<'_, BACKED> {
    ghost meaning = { λ ram. uniform true BACKED ram.bytes.now };

    fn size(&self) -> u32 {
        bytes::size(self.bytes)
    }

    fn is_open(&self, place: Place) -> bool {
        bytes::holds(self.bytes, place)
    }

    fn read(&self, place: Place) -> Result<u8, Fault> {
        bytes::read(self.bytes, place)
    }

    fn write(&mut self, place: Place, value: u8) -> Result<(), Fault> {
        write(self.bytes, place, value)
    }

    fn lose_power(&mut self) {
        if !BACKED {
            self.bytes.fill(0xFF);
        }
    }
}

// Writes a byte of a chip, all of whose places can be written. A function of its own, told of the bytes, since here no
// battery matters.
fn write(bytes: &mut [u8], place: Place, value: u8) -> Result<(), Fault>
    ensures answer { result ≡ write_at (backed bytes.old) place.index }
    ensures after { bytes.new ≡ slice_set bytes.old place.index value }
{
    if !bytes::holds(bytes, place) {
        return Err(Fault::NoSuchPlace);
    }
    // By its index: what std says of `get_mut` leaves the bytes open after the write.
    bytes[place.index() as usize] = value;
    Ok(())
}

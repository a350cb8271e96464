// ROM over the caller's bytes: no place can be written, and every place keeps its byte without power.
ghost use Rattle.std.specs.Prelude.{◌≡◌, take};
ghost use Rattle.device.specs.Kinds.{read_only};
ghost use Rattle.terms.specs.Limits.{places};

use device::{Device, bytes};
use terms::{Fault, Place};

// A RAM chip has its bytes alone and a ROM shares them: a type for both would be generic over the reference, for the
// sake of `size` and `read`, a line each.
#[derive(Clone, Copy, Debug, PartialEq, Eq)]
pub struct Rom<'a> {
    bytes: &'a [u8],
}

impl<'a> Rom<'a> {
    // Bytes beyond the places that a device can have are left out.
    pub fn new(bytes: &'a [u8]) -> Rom<'a>
        ensures { result.bytes.now ≡ take places bytes.now }
    {
        let size = bytes::size(bytes) as usize;
        Rom {
            bytes: &bytes[0..size],
        }
    }

    pub fn into_bytes(self) -> &'a [u8]
        ensures { result.now ≡ self.entry.bytes.now }
    {
        self.bytes
    }
}

impl Device for Rom<'_> {
    ghost meaning = { λ rom. read_only rom.bytes.now };

    fn size(&self) -> u32 {
        bytes::size(self.bytes)
    }

    fn is_open(&self, _place: Place) -> bool {
        false
    }

    fn read(&self, place: Place) -> Result<u8, Fault> {
        bytes::read(self.bytes, place)
    }

    fn write(&mut self, place: Place, _value: u8) -> Result<(), Fault> {
        if bytes::holds(self.bytes, place) {
            Err(Fault::WriteProtected)
        } else {
            Err(Fault::NoSuchPlace)
        }
    }

    fn lose_power(&mut self) {}
}

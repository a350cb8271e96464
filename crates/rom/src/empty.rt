// An empty socket: a device with no places.
ghost use Rattle.device.specs.Kinds.{empty};

use device::Device;
use terms::{Fault, Place};

#[derive(Clone, Copy, Debug, PartialEq, Eq)]
pub struct Empty;

impl Device for Empty {
    ghost meaning = { λ _. empty };

    fn size(&self) -> u32 {
        0
    }

    fn is_open(&self, _place: Place) -> bool {
        false
    }

    fn read(&self, _place: Place) -> Result<u8, Fault> {
        Err(Fault::NoSuchPlace)
    }

    fn write(&mut self, _place: Place, _value: u8) -> Result<(), Fault> {
        Err(Fault::NoSuchPlace)
    }

    fn lose_power(&mut self) {}
}

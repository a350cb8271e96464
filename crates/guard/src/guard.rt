// A write protection around any device.
ghost use Rattle.std.specs.Prelude.{◌≡◌, false, ◌&&◌, replicate, if◌then◌else◌, Ok, Err, nat_lt};
ghost use Rattle.guard.specs.Guard.{flag_count, segment_places, flag, flagged, guarded};
ghost use Rattle.device.specs.Meaning.{exists};
ghost use Rattle.terms.specs.declared.refusal.Fault.TheVariants.{WriteProtected};
ghost use Rattle.terms.specs.declared.refusal.Refusal.TheVariants.{IndexTooLarge};

use device::Device;
use terms::{Fault, Place, Refusal};

// A segment is a run of so many places, which are protected together.
#[derive(Clone, Copy, Debug, PartialEq, Eq)]
pub enum SegmentSize {
    Places2048 = 2048,
    Places4096 = 4096,
}

impl SegmentSize {
    // A method and no `From`: its name says what the number is.
    fn places(self) -> u32
        ensures { result ≡ segment_places self }
    {
        self as u32
    }
}

const FLAGS: usize = 256;

// A guard: a device whose flagged segments cannot be written. All else is as in the device below.
#[derive(Debug, Drop)]
pub struct Guard<D> {
    device: D,
    segments: SegmentSize,
    // Which of the first segments are write-protected; the segments beyond them never are.
    flags: [bool; FLAGS],
}

impl<D: Device> Guard<D> {
    // A guard that protects no segment yet.
    pub fn new(device: D, segments: SegmentSize) -> Guard<D>
        ensures below { result.device ≡ device }
        ensures segments { result.segments ≡ segments }
        ensures flags { result.flags ≡ replicate flag_count false }
    {
        Guard {
            device,
            segments,
            flags: [false; FLAGS],
        }
    }

    pub fn into_inner(self) -> D
        ensures { result ≡ self.device }
    {
        let Guard { device, .. } = self;
        device
    }

    // Write-protects a segment, if it is one of those that have a flag.
    pub fn protect(&mut self, segment: u16) -> Result<(), Refusal>
        ensures answer { result ≡ (if nat_lt segment flag_count then Ok tt else Err IndexTooLarge) }
        ensures flags { self.new.flags ≡ flag self.old.flags segment }
        ensures below { self.new.device ≡ self.old.device }
        ensures segments { self.new.segments ≡ self.old.segments }
    {
        let segment = usize::from(segment);
        if segment >= FLAGS {
            return Err(Refusal::IndexTooLarge);
        }
        // By its index: what std says of `get_mut` leaves the flags open after the write.
        self.flags[segment] = true;
        Ok(())
    }

    fn protects(&self, place: Place) -> bool
        ensures { result ≡ flagged self.now.segments self.now.flags place.index }
    {
        let segment = (place.index() / self.segments.places()) as usize;
        self.flags.get(segment).copied().unwrap_or(false)
    }

    // Refuses a place in a write-protected segment. One that does not exist is left to the device below to refuse.
    fn admit(&self, place: Place) -> Result<(), Fault>
        ensures { result ≡ (if exists (D.Device.meaning self.now.device) place.index && flagged self.now.segments self.now.flags place.index then Err WriteProtected else Ok tt) }
    {
        if place.index() < self.device.size() && self.protects(place) {
            return Err(Fault::WriteProtected);
        }
        Ok(())
    }
}

impl<D: Device> Device for Guard<D> {
    ghost meaning = { λ g. guarded g.segments g.flags (D.Device.meaning g.device) };

    fn size(&self) -> u32 {
        self.device.size()
    }

    fn is_open(&self, place: Place) -> bool {
        self.device.is_open(place) && !self.protects(place)
    }

    fn read(&self, place: Place) -> Result<u8, Fault> {
        self.device.read(place)
    }

    fn write(&mut self, place: Place, value: u8) -> Result<(), Fault> {
        self.admit(place)?;
        self.device.write(place, value)
    }

    fn lose_power(&mut self) {
        self.device.lose_power()
    }
}

// What asks for an interrupt: a bit of CAUSE each.
ghost use Rattle.std.specs.Prelude.{◌≡◌, ◌^◌, ◌<◌};
ghost use Rattle.power.specs.Causes.{position, maskable};

#[derive(Clone, Copy, Debug, PartialEq, Eq)]
pub enum Cause {
    Doze = 0,
    Sleep = 1,
    Suspend = 2,
    Ext = 3,
    Battery = 4,
    Violation = 5,
    Activity = 6,
}

impl Cause {
    // The bit of CAUSE, and of MASK, that stands for it. A method and no `From`: its name says what the byte is.
    pub(crate) fn position(self) -> u8
        ensures position { result ≡ position self }
        ensures bound { result < 8 }
    {
        self as u8
    }

    // CAUSE with this bit alone.
    pub(crate) fn flag(self) -> u8
        ensures { result ≡ 2 ^ position self }
    {
        1 << self.position()
    }

    // Activity cannot be masked.
    pub(crate) fn is_maskable(self) -> bool
        ensures { result ≡ maskable self }
    {
        self != Cause::Activity
    }
}

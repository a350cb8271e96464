// What has come of the line that has not ended.
ghost use Rattle.std.specs.Prelude.{◌≡◌, ◌++◌, [], ◌∷◌, ◌==◌, length, take};

use frames::FRAME_LENGTH;
use std::marker::Model;

// One byte more than a frame has.
const ROOM: usize = FRAME_LENGTH + 1;

// The first bytes of a line: one of more than twelve is no frame, whatever follows, so thirteen tell all.
// An array with a length, and no `Vec`, since a link needs no heap, and no crate of the kit stands below the programs; its
// model is the bytes alone.
#[derive(Drop)]
pub(crate) struct Held {
    bytes: [u8; ROOM],
    len: usize,
}

impl Model for Held {
    ghost use Rattle.std.specs.Prelude.{ℕ, ◌≤◌, List, take};

    ghost Value = { List ℕ };

    ghost view = { λ h. take h.len h.bytes };

    ghost invariant = { λ h. h.len ≤ 13 };
}

impl Held {
    pub(crate) fn new() -> Held
        ensures { result ≡ [] }
    {
        Held {
            bytes: [0; ROOM],
            len: 0,
        }
    }

    pub(crate) fn is_empty(&self) -> bool
        ensures { result ≡ (length self.now == 0) }
    {
        self.len == 0
    }

    pub(crate) fn as_slice(&self) -> &[u8]
        ensures { result.now ≡ self.now }
    {
        &self.bytes[0..self.len]
    }

    // One byte more of the line, if it is among the first thirteen.
    pub(crate) fn push(&mut self, b: u8)
        ensures { self.new ≡ take 13 (self.old ++ b ∷ []) }
    {
        if self.len < ROOM {
            self.bytes[self.len] = b;
            self.len += 1;
        }
    }

    pub(crate) fn clear(&mut self)
        ensures { self.new ≡ [] }
    {
        self.len = 0;
    }
}

// The board that the program runs on: what stands in its four sockets.
ghost use Rattle.std.specs.Prelude.{◌≡◌, [], length, replicate, IfOk};
ghost use Rattle.board.specs.Board.{chip, sockets_of, card_flags, board, Burnt, New};
ghost use Rattle.link.specs.View.{held};
ghost use Rattle.machine.specs.View.{view};
ghost use Rattle.guard.specs.declared.guard.SegmentSize.TheVariants.{Places2048};

use guard::{Guard, SegmentSize};
use link::Link;
use machine::{Devices, Engine};
use pair::Pair;
use ram::{BackedRam, Ram};
use rom::{Empty, Rom};
use std::alloc::{AllocError, Global};

// The size of each of the two RAM chips, of the ROM and of card A.
pub const CHIP: usize = 16_384;

// The bytes behind the board's devices.
#[derive(Drop)]
pub struct Memory {
    even: Vec<u8>,
    odd: Vec<u8>,
    rom: Vec<u8>,
    card: Vec<u8>,
}

// A link to an engine on the board: two RAM chips side by side, a ROM, a write-protected card, and an empty socket.
pub type BoardLink<'a> = Link<BoardDevices<'a>>;

pub type BoardDevices<'a> = Devices<Pair<Ram<'a>, Ram<'a>>, Rom<'a>, Guard<BackedRam<'a>>, Empty>;

impl Memory {
    pub fn new(heap: Global) -> Result<Memory, AllocError>
        ensures { IfOk result New }
    {
        Ok(Memory {
            even: clear_chip(heap)?,
            odd: clear_chip(heap)?,
            rom: burnt_chip(heap)?,
            card: clear_chip(heap)?,
        })
    }

    // A new engine on the board.
    pub fn link(&mut self) -> BoardLink<'_>
        ensures machine { view sockets_of result.engine ≡ board self.old.even.items self.old.odd.items self.old.rom.items self.old.card.items }
        ensures held { held result ≡ [] }
    {
        assemble(
            self.even.as_mut_slice(),
            self.odd.as_mut_slice(),
            self.rom.as_slice(),
            self.card.as_mut_slice(),
        )
    }
}

// A new engine on the board, over the bytes of its chips. Four parameters and no struct: the chips stand apart in whoever
// has them, and are named at each call.
pub fn assemble<'a>(
    even: &'a mut [u8],
    odd: &'a mut [u8],
    rom: &'a [u8],
    card: &'a mut [u8],
) -> BoardLink<'a>
    ensures machine { view sockets_of result.engine ≡ board even.old odd.old rom.now card.old }
    ensures held { held result ≡ [] }
{
    let sockets = Devices {
        ram: Pair::new(Ram::new(even), Ram::new(odd)),
        rom: Rom::new(rom),
        card_a: protected(BackedRam::new(card)),
        card_b: Empty,
    };
    Link::new(Engine::new(sockets))
}

// A card of which the first 2,048 places are write-protected.
fn protected(card: BackedRam) -> Guard<BackedRam>
    ensures below { result.device.bytes.now ≡ card.entry.bytes.now }
    ensures segments { result.segments ≡ Places2048 }
    ensures flags { result.flags ≡ card_flags }
{
    let mut card = Guard::new(card, SegmentSize::Places2048);
    // The first segment has a flag, so this is never refused.
    let _ = card.protect(0);
    card
}

fn clear_chip(heap: Global) -> Result<Vec<u8>, AllocError>
    ensures { IfOk result (λ v. v.items ≡ replicate chip 0) }
{
    vec![in heap; 0u8; CHIP]
}

fn burnt_chip(heap: Global) -> Result<Vec<u8>, AllocError>
    ensures { IfOk result (λ v. (length v.items ≡ chip) × Burnt v.items) }
{
    let mut chip = clear_chip(heap)?;
    burn(chip.as_mut_slice());
    Ok(chip)
}

// Makes the byte at p p mod 251.
pub fn burn(bytes: &mut [u8])
    ensures bytes { Burnt bytes.new }
    ensures len { length bytes.new ≡ length bytes.old }
{
    for (p, byte) in bytes.iter_mut().enumerate() {
        *byte = (p % 251) as u8;
    }
}

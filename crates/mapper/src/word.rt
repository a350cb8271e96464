// A page word and its parts.
ghost use Rattle.std.specs.Prelude.{◌≡◌, IfOk, if◌then◌else◌, Ok, Err, nat_lt};
ghost use Rattle.mapper.specs.Words.{sockets, split, join};
ghost use Rattle.mapper.specs.Translation.{socket_number};
ghost use Rattle.terms.specs.Results.{ok_map};
ghost use Rattle.terms.specs.declared.refusal.Refusal.TheVariants.{IndexTooLarge};

use terms::{PAGE_SIZE, PLACES, Refusal};

// A socket takes one device; the engine has four.
#[derive(Clone, Copy, Debug, PartialEq, Eq)]
pub enum Socket {
    Ram = 0,
    Rom = 1,
    CardA = 2,
    CardB = 3,
}

const SOCKETS: u8 = 4;

// The socket of that number, if there is one.
impl TryFrom<u8> for Socket {
    type Error = Refusal;

    ghost try_from_gives = { λ number r. ok_map socket_number r ≡ (if nat_lt number sockets then Ok number else Err IndexTooLarge) };

    fn try_from(number: u8) -> Result<Self, Refusal> {
        match number {
            0 => Ok(Socket::Ram),
            1 => Ok(Socket::Rom),
            2 => Ok(Socket::CardA),
            3 => Ok(Socket::CardB),
            _ => Err(Refusal::IndexTooLarge),
        }
    }
}

// What a page word says of its page. The device page is counted in pages of the device.
#[derive(Clone, Copy, Debug, PartialEq, Eq)]
pub struct PageParts {
    // No Option of the rest: a word that is not mapped has the other parts too, and none is lost.
    pub mapped: bool,
    pub readonly: bool,
    // A number, since the parts come from outside: `join` refuses what no socket has.
    pub socket: u8,
    pub page: u16,
}

pub fn split(word: u16) -> PageParts
    ensures parts { result ≡ split word }
    ensures back { join result ≡ Ok word }
{
    PageParts {
        mapped: (word >> 15) % 2 == 1,
        readonly: (word >> 14) % 2 == 1,
        socket: ((word >> 12) % 4) as u8,
        page: word % 0x1000,
    }
}

// The word of the parts; a socket or a device page that does not exist is refused.
pub fn join(parts: PageParts) -> Result<u16, Refusal>
    ensures word { result ≡ join parts }
    ensures back { IfOk result (λ w. split w ≡ parts) }
{
    if parts.socket >= SOCKETS || u32::from(parts.page) >= PLACES / PAGE_SIZE {
        return Err(Refusal::IndexTooLarge);
    }
    // By an `if`, which shows each bit, and no shift of a `bool`.
    let mapped = if parts.mapped { 0x8000 } else { 0 };
    let readonly = if parts.readonly { 0x4000 } else { 0 };
    Ok(mapped + readonly + u16::from(parts.socket) * 0x1000 + parts.page)
}

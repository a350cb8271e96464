// The page table: one word for each of the 64 pages of CPU addresses.
ghost use Rattle.std.specs.Prelude.{◌≡◌, ℕ};
ghost use Rattle.std.specs.Option.{option_map};
ghost use Rattle.mapper.specs.Translation.{leads, reset_words, stored};
ghost use Rattle.mapper.specs.View.{words, target_of};

use super::{Socket, split};
use terms::{CpuAddress, CpuPage, PAGE_SIZE, Place};

// No `impl Model`: its value would be the words by page, a function, which a model cannot have.
#[derive(Drop)]
pub struct PageTable {
    words: [u16; 64],
}

// Where an address leads: a place of a socket's device, through a page that may be read-only.
#[derive(Clone, Copy, Debug, PartialEq, Eq)]
pub struct Located {
    pub socket: Socket,
    pub place: Place,
    pub readonly: bool,
}

impl PageTable {
    // As after a reset: only the last page is mapped, read-only, to the ROM's first page.
    pub fn new() -> PageTable
        ensures { words result ≡ reset_words }
    {
        let mut words = [0; 64];
        words[63] = 0xD000;
        PageTable { words }
    }

    pub fn word(&self, page: CpuPage) -> u16
        ensures { result ≡ words self.now page.number }
    {
        self.words[page.number() as usize]
    }

    pub fn store(&mut self, page: CpuPage, word: u16)
        ensures { words self.new ≡ stored (words self.old) page.number word }
    {
        let at = page.number() as usize;
        self.words[at] = word;
    }

    // Where the address leads, if its page is mapped.
    pub fn translate(&self, address: CpuAddress) -> Option<Located>
        ensures { option_map target_of result ≡ leads (words self.now) address.bits }
    {
        let parts = split(self.word(address.page()));
        if !parts.mapped {
            return None;
        }
        Some(Located {
            socket: Socket::try_from(parts.socket).ok()?,
            place: Place::try_from(u32::from(parts.page) * PAGE_SIZE + address.offset()).ok()?,
            readonly: parts.readonly,
        })
    }
}

// CPU addresses, and the words that map their pages to places of the sockets.

use super::stack::Socket;
use super::words::Refusal;

const PAGE_SIZE: u32 = 0x4000;

// A CPU address, of 20 bits.
#[derive(Clone, Copy)]
pub struct Address(u32);

impl Address {
    pub fn page(self) -> u32 {
        self.0 / PAGE_SIZE
    }

    pub fn low(self) -> u8 {
        self.0.to_le_bytes()[0]
    }

    pub fn middle(self) -> u8 {
        self.0.to_le_bytes()[1]
    }

    pub fn high(self) -> u8 {
        self.0.to_le_bytes()[2]
    }

    // What the registers of the last violation hold before there is one.
    pub const NONE: Address = Address(0);
}

impl TryFrom<u32> for Address {
    type Error = Refusal;

    fn try_from(number: u32) -> Result<Address, Refusal> {
        if number > 0xF_FFFF {
            return Err(Refusal::LargeAddress);
        }
        Ok(Address(number))
    }
}

// A page word.
#[derive(Clone, Copy)]
pub struct PageWord(pub u16);

impl PageWord {
    // The word of a page after a reset: only the last one is mapped, to the start of the ROM.
    pub fn after_reset(page: u32) -> PageWord {
        PageWord(if page == 63 { 0xD000 } else { 0x0000 })
    }

    pub fn is_mapped(self) -> bool {
        self.0 & 0x8000 != 0
    }

    pub fn is_read_only(self) -> bool {
        self.0 & 0x4000 != 0
    }

    pub fn socket(self) -> Socket {
        match self.0 & 0x3000 {
            0x0000 => Socket::Ram,
            0x1000 => Socket::Rom,
            0x2000 => Socket::CardA,
            _ => Socket::CardB,
        }
    }

    // The number of the place in the socket's device that an address of the page maps to.
    pub fn place(self, address: Address) -> usize {
        let device_page = usize::from(self.0 & 0x0FFF);
        device_page * PAGE_SIZE as usize + (address.0 % PAGE_SIZE) as usize
    }
}

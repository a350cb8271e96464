// The sockets as the CPU sees them.

use super::page::{Address, PageWord};
use super::past::Past;
use super::stack::{Board, Place, PowerLine};
use super::words::Refusal;
use std::alloc::{AllocError, Global};

// The devices, and the bytes that their chips held at first.
#[derive(Clone, Copy)]
pub struct Memory<'a> {
    board: &'a Board,
    first: &'a [u8],
}

impl<'a> Memory<'a> {
    pub fn new(board: &'a Board, first: &'a [u8]) -> Memory<'a> {
        Memory { board, first }
    }

    pub fn read(self, past: &Past, address: Address) -> Result<u8, Refusal> {
        let word = mapped_page(past, address)?;
        let place = self.powered_place(past, word, address)?;
        let left = past.byte(place, word.socket().power_line());
        let first = self.first.get(place.byte).copied();
        Ok(left.or(first).unwrap_or(0xFF))
    }

    // The byte of the flat list that a write to the address writes.
    pub fn writable_byte(self, past: &Past, address: Address) -> Result<usize, Refusal> {
        let word = mapped_page(past, address)?;
        if word.is_read_only() {
            return Err(Refusal::ReadOnlyPage);
        }
        let place = self.powered_place(past, word, address)?;
        if !place.is_writable {
            return Err(Refusal::WriteProtected);
        }
        Ok(place.byte)
    }

    // All bytes as they are now.
    pub fn bytes(self, past: &Past, heap: Global) -> Result<Vec<u8>, AllocError> {
        let mut bytes = self.first.to_vec(heap)?;
        // From the oldest line on, so that what a later one leaves stays.
        for record in past.records() {
            for line in [PowerLine::Ram, PowerLine::Rom, PowerLine::Cards] {
                if record.verdict.cuts_power(line) {
                    self.board.lose_power(line, &mut bytes);
                }
            }
            if let Some((byte, value)) = record.write()
                && let Some(place) = bytes.get_mut(byte)
            {
                *place = value;
            }
        }
        Ok(bytes)
    }

    fn powered_place(
        self,
        past: &Past,
        word: PageWord,
        address: Address,
    ) -> Result<Place, Refusal> {
        let socket = word.socket();
        if !past.outputs().supplies(socket.power_line()) {
            return Err(Refusal::NoPower);
        }
        self.board
            .device(socket)
            .place(word.place(address))
            .ok_or(Refusal::NoPlace)
    }
}

fn mapped_page(past: &Past, address: Address) -> Result<PageWord, Refusal> {
    let word = past.page(address.page());
    if !word.is_mapped() {
        return Err(Refusal::UnmappedPage);
    }
    Ok(word)
}

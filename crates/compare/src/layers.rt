// The boards as the second implementation takes them: trees of layers. They are written out here, apart from the types of
// which the engine is built (boards.rt), so that the comparison shows where the two are not the same board. Both take the
// chips and the guards in the same order.
use crate::boards::{Setup, Shape};
use crate::parts::Stock;
use crate::second::stack::{Board, Chip, ChipKind, Layer};
use guard::SegmentSize;
use std::alloc::{AllocError, Global};

impl Setup {
    pub fn describe(&self, heap: Global) -> Result<Board, AllocError> {
        let layers = Layers {
            heap,
            stock: Stock::of(self),
        };
        match self.shape {
            Shape::Program => layers.program(),
            Shape::GuardOverPair => layers.guard_over_pair(),
            Shape::DeepStack => layers.deep_stack(),
        }
    }
}

// What layers are made of.
#[derive(Drop)]
struct Layers<'a> {
    heap: Global,
    stock: Stock<'a>,
}

impl Layers<'_> {
    // Two RAM chips side by side, a ROM, a guarded card with a battery, and an empty socket.
    fn program(mut self) -> Result<Board, AllocError> {
        let even = self.chip(ChipKind::Ram);
        let odd = self.chip(ChipKind::Ram);
        let ram = self.pair(even, odd)?;
        let rom = self.chip(ChipKind::Rom);
        let card = self.chip(ChipKind::BackedRam);
        let card_a = self.guard(card)?;
        Ok(self.board(ram, rom, card_a, Layer::Empty))
    }

    fn guard_over_pair(mut self) -> Result<Board, AllocError> {
        let even = self.chip(ChipKind::Ram);
        let odd = self.chip(ChipKind::BackedRam);
        let pair = self.pair(even, odd)?;
        let ram = self.guard(pair)?;
        let chip = self.chip(ChipKind::Rom);
        let rom = self.guard(chip)?;
        let card_a = self.chip(ChipKind::Ram);
        let half = self.chip(ChipKind::Ram);
        let card_b = self.pair(half, Layer::Empty)?;
        Ok(self.board(ram, rom, card_a, card_b))
    }

    fn deep_stack(mut self) -> Result<Board, AllocError> {
        let even = self.chip(ChipKind::Ram);
        let odd = self.chip(ChipKind::BackedRam);
        let inner = self.pair(even, odd)?;
        let first = self.guard(inner)?;
        let even = self.chip(ChipKind::Rom);
        let odd = self.chip(ChipKind::Ram);
        let second = self.pair(even, odd)?;
        let outer = self.pair(first, second)?;
        let ram = self.guard(outer)?;
        let rom = self.chip(ChipKind::Ram);
        let chip = self.chip(ChipKind::BackedRam);
        let inner = self.guard(chip)?;
        let card_a = self.guard(inner)?;
        Ok(self.board(ram, rom, card_a, Layer::Empty))
    }

    fn chip(&mut self, kind: ChipKind) -> Layer {
        let start = self.stock.bytes();
        let size = self.stock.take_size();
        Layer::Chip(Chip { kind, start, size })
    }

    fn guard(&mut self, below: Layer) -> Result<Layer, AllocError> {
        let protection = self.stock.take_protection();
        // Not the engine's own numbers, which the comparison is to see.
        let segment = match protection.segments {
            SegmentSize::Places2048 => 2_048,
            SegmentSize::Places4096 => 4_096,
        };
        Ok(Layer::Guard {
            below: Box::new(self.heap, below)?,
            segment,
            flags: protection.flags,
        })
    }

    fn pair(&self, even: Layer, odd: Layer) -> Result<Layer, AllocError> {
        Ok(Layer::Pair {
            even: Box::new(self.heap, even)?,
            odd: Box::new(self.heap, odd)?,
        })
    }

    fn board(self, ram: Layer, rom: Layer, card_a: Layer, card_b: Layer) -> Board {
        Board {
            ram,
            rom,
            card_a,
            card_b,
            bytes: self.stock.bytes(),
        }
    }
}

// The parts of a board: devices that take what they are made of from the same stock, one after the other.
use crate::boards::Setup;
use crate::pools;
use crate::random::Random;
use device::Device;
use guard::{Guard, SegmentSize};
use pair::Pair;
use ram::Chip as RamChip;
use rom::{Empty, Rom};
use std::{array, slice};

// What a guard write-protects: the segments of these numbers.
#[derive(Clone, Copy)]
pub struct Protection {
    pub segments: SegmentSize,
    pub flags: [u8; 4],
}

impl Protection {
    pub fn drawn(random: &mut Random) -> Protection {
        let segments = if random.one_in(2) {
            SegmentSize::Places2048
        } else {
            SegmentSize::Places4096
        };
        let flags = array::from_fn(|_| random.pick(&pools::FLAGS));
        Protection { segments, flags }
    }
}

pub const FIRST_SEGMENT: Protection = Protection {
    segments: SegmentSize::Places2048,
    flags: [0; 4],
};

// What a board is made of. Its parts take the chips and the protections one after the other, the chips from the front of
// one flat list of bytes.
#[derive(Drop)]
pub struct Stock<'a> {
    sizes: slice::Iter<'a, usize>,
    protections: slice::Iter<'a, Protection>,
    // Where the next chip starts.
    start: usize,
}

impl<'a> Stock<'a> {
    pub fn of(setup: &'a Setup) -> Stock<'a> {
        Stock {
            sizes: setup.sizes.iter(),
            protections: setup.guards.iter(),
            start: 0,
        }
    }

    pub fn take_size(&mut self) -> usize {
        let size = self.sizes.next().copied().unwrap_or(0);
        self.start = self.start.saturating_add(size);
        size
    }

    pub fn take_protection(&mut self) -> Protection {
        self.protections.next().copied().unwrap_or(FIRST_SEGMENT)
    }

    // How many bytes the chips have that are taken.
    pub fn bytes(&self) -> usize {
        self.start
    }
}

// The bytes of the chips that are not taken yet, and what else a board is made of.
#[derive(Drop)]
pub struct Bench<'a> {
    pub stock: Stock<'a>,
    pub bytes: &'a mut [u8],
}

impl<'a> Bench<'a> {
    // The bytes of the next chip.
    pub fn take_chip(&mut self) -> &'a mut [u8] {
        let size = self.stock.take_size();
        self.bytes.split_off_mut(..size).unwrap_or_default()
    }
}

// A device that boards are made of.
pub trait Part<'a>: Device + Drop {
    fn build(bench: &mut Bench<'a>) -> Self;
}

impl<'a, const BACKED: bool> Part<'a> for RamChip<'a, BACKED> {
    fn build(bench: &mut Bench<'a>) -> RamChip<'a, BACKED> {
        RamChip::new(bench.take_chip())
    }
}

impl<'a> Part<'a> for Rom<'a> {
    fn build(bench: &mut Bench<'a>) -> Rom<'a> {
        Rom::new(bench.take_chip())
    }
}

impl<'a> Part<'a> for Empty {
    fn build(_bench: &mut Bench<'a>) -> Empty {
        Empty
    }
}

impl<'a, D: Part<'a>> Part<'a> for Guard<D> {
    fn build(bench: &mut Bench<'a>) -> Guard<D> {
        let below = D::build(bench);
        let protection = bench.stock.take_protection();
        let mut guard = Guard::new(below, protection.segments);
        for flag in protection.flags {
            // Every byte is the number of a flag, so this is never refused.
            let _ = guard.protect(u16::from(flag));
        }
        guard
    }
}

impl<'a, E: Part<'a>, O: Part<'a>> Part<'a> for Pair<E, O> {
    fn build(bench: &mut Bench<'a>) -> Pair<E, O> {
        let even = E::build(bench);
        let odd = O::build(bench);
        Pair::new(even, odd)
    }
}

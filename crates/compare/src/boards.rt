// The boards that lists are run on: the program's, and others that stack the layers in other ways. A shape is a type, of
// which the engine is built; layers.rt tells the second implementation of it.
use crate::parts::{Bench, FIRST_SEGMENT, Part, Protection};
use crate::pools;
use crate::random::Random;
use board::{BoardDevices, CHIP, assemble};
use guard::Guard;
use machine::{Devices, Engine};
use pair::Pair;
use ram::{BackedRam, Ram};
use rom::{Empty, Rom};
use std::{array, fmt};

// The most chips, and the most guards, that a board has.
const CHIPS: usize = 6;

const GUARDS: usize = 4;

// Told apart by a match: each shape is another type, so there is no one function that a table could hold.
#[derive(Clone, Copy, PartialEq)]
pub enum Shape {
    // As the program's board.
    Program,
    // A guard over a pair, a guard over a ROM, a RAM, and a pair with an empty half.
    GuardOverPair,
    // A guard over a pair of a guard over a pair and another pair, a RAM in the ROM socket, a guard over a guard, and an
    // empty socket.
    DeepStack,
}

const SHAPES: [Shape; 3] = [Shape::Program, Shape::GuardOverPair, Shape::DeepStack];

pub type Program<'a> = Engine<BoardDevices<'a>>;

pub type GuardOverPair<'a> = Engine<
    Devices<Guard<Pair<Ram<'a>, BackedRam<'a>>>, Guard<Rom<'a>>, Ram<'a>, Pair<Ram<'a>, Empty>>,
>;

pub type DeepStack<'a> = Engine<
    Devices<
        Guard<Pair<Guard<Pair<Ram<'a>, BackedRam<'a>>>, Pair<Rom<'a>, Ram<'a>>>>,
        Ram<'a>,
        Guard<Guard<BackedRam<'a>>>,
        Empty,
    >,
>;

// A board: its shape, the sizes of its chips and what its guards protect, as many as the shape has.
#[derive(Clone, Copy)]
pub struct Setup {
    pub shape: Shape,
    pub sizes: [usize; CHIPS],
    pub guards: [Protection; GUARDS],
}

// An engine with parts in its sockets.
pub trait Built<'a> {
    fn build(bench: Bench<'a>) -> Self;
}

impl<'a, R: Part<'a>, O: Part<'a>, CA: Part<'a>, CB: Part<'a>> Built<'a>
    for Engine<Devices<R, O, CA, CB>> {
    fn build(mut bench: Bench<'a>) -> Self {
        let ram = R::build(&mut bench);
        let rom = O::build(&mut bench);
        let card_a = CA::build(&mut bench);
        let card_b = CB::build(&mut bench);
        Engine::new(Devices {
            ram,
            rom,
            card_a,
            card_b,
        })
    }
}

impl Setup {
    // Each shape has its turn. All but the program's board have other sizes and flags each time.
    pub fn drawn(list: usize) -> Setup {
        let shape = SHAPES[list % SHAPES.len()];
        if shape == Shape::Program {
            return Setup {
                shape,
                sizes: [CHIP; CHIPS],
                guards: [FIRST_SEGMENT; GUARDS],
            };
        }
        let mut random = Random::new(list as u64);
        Setup {
            shape,
            sizes: array::from_fn(|_| random.pick(&pools::CHIP_SIZES)),
            guards: array::from_fn(|_| Protection::drawn(&mut random)),
        }
    }
}

// The program's own board is put together as the program does it.
pub fn build_program(mut bench: Bench<'_>) -> Program<'_> {
    let even = bench.take_chip();
    let odd = bench.take_chip();
    let rom = bench.take_chip();
    let card = bench.take_chip();
    assemble(even, odd, rom, card).into_engine()
}

impl fmt::Display for Shape {
    fn fmt<W: fmt::Write>(&self, f: &mut fmt::Formatter<W>) -> fmt::Result {
        f.write_str(match self {
            Shape::Program => "the program's board",
            Shape::GuardOverPair => "a guard over a pair",
            Shape::DeepStack => "a stack of four layers",
        })
    }
}

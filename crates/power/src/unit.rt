// The power unit, with the bounds that every value keeps.
ghost use Rattle.std.specs.Prelude.{◌≡◌, ◌≤◌, if◌then◌else◌, slice_index};
ghost use Rattle.registers.specs.States.{asleep};

use registers::State;

// No `impl Model`: its value would hold the register table, a function, which a model cannot have.
#[derive(Drop)]
pub struct PowerUnit {
    pub(crate) state: State,
    pub(crate) registers: [u8; 16],
    // Ticks until the state runs out; 0 where nothing is counted.
    pub(crate) idle: u16,
    // How many ticks running found EXT low, at most 2.
    pub(crate) low: u8,
    // Rises of the ring line since Suspend or Off was entered.
    pub(crate) edges: u8,
    // The levels last given.
    pub(crate) ext: bool,
    pub(crate) ring: bool,
    pub(crate) battery: bool,
    pub(crate) ac: bool,
    ghost counts: { idle ≤ 8160 },
    ghost samples: { low ≤ 2 },
    ghost rings: { edges ≤ 6 },
    ghost calm: { (if asleep state then slice_index registers 5 else 0) ≡ 0 },
}

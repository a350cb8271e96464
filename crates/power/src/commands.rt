// Making the unit, its registers, states and causes.
ghost use Rattle.std.specs.Prelude.{◌≡◌, ◌<◌, true, false, Ok, Err, if◌then◌else◌, ◌==◌, slice_index};
ghost use Rattle.registers.specs.States.{asleep};
ghost use Rattle.registers.specs.Registers.{index, bit};
ghost use Rattle.power.specs.Power.{cause, mask, put, reloaded, entered, reset};
ghost use Rattle.power.specs.Causes.{position, raised, violated};
ghost use Rattle.power.specs.Commands.{read_answer, read_done, write_answer, write_done};
ghost use Rattle.power.specs.View.{view};
ghost use Rattle.terms.specs.declared.refusal.Refusal.TheVariants.{Asleep};

use super::{Cause, PowerUnit};
use registers::{Register, State};
use terms::{CpuAddress, Refusal};

// What the registers hold after a reset, from index 00h on. STATE and the present outputs are shown as they are.
const RESET: [u8; 16] = [
    0x00, 0x00, 0x00, 0x00, 0x3F, 0x00, 0x01, 0x00, 0x0F, 0x0F, 0x0E, 0x02, 0x00, 0x00, 0x00, 0x0F,
];

// A unit of a load register is a second.
const TICKS_PER_LOAD: u16 = 32;

impl PowerUnit {
    // As after a reset.
    pub fn new() -> PowerUnit
        ensures { view result ≡ reset }
    {
        PowerUnit {
            state: State::On,
            registers: RESET,
            idle: 0,
            low: 0,
            edges: 0,
            ext: false,
            ring: false,
            battery: false,
            ac: false,
        }
    }

    // Refuses what the processor asks for in Suspend and Off.
    pub fn check_awake(&self) -> Result<(), Refusal>
        ensures { result ≡ (if asleep (view self.now).state then Err Asleep else Ok tt) }
    {
        if self.state.asleep() {
            return Err(Refusal::Asleep);
        }
        Ok(())
    }

    // What a frame reads of the register. CAUSE is cleared by it.
    pub fn read(&mut self, register: Register) -> Result<u8, Refusal>
        ensures answer { result ≡ read_answer (index register) (view self.old) }
        ensures after { view self.new ≡ read_done (index register) (view self.old) }
    {
        self.check_awake()?;
        match register {
            Register::State => Ok(self.state.number()),
            Register::Outputs => Ok(self.outputs()),
            Register::Cause => Ok(self.take_causes()),
            _ => Ok(self.get(register)),
        }
    }

    // Writes the register as a frame does: STATE enters the state, and the load of the present state sets the idle counter too.
    pub fn write(&mut self, register: Register, value: u8) -> Result<(), Refusal>
        ensures answer { result ≡ write_answer (index register) value (view self.old) }
        ensures after { view self.new ≡ write_done (index register) value (view self.old) }
    {
        match register {
            Register::State => self.command(value),
            _ => self.store(register, value),
        }
    }

    // Notes a write that the mapper or a device forbids: its address and its cause. No frame writes in Suspend and Off.
    pub fn note_violation(&mut self, address: CpuAddress)
        ensures { view self.new ≡ violated address.bits (view self.old) }
    {
        if self.state.asleep() {
            return;
        }
        let bits = address.bits();
        self.set(Register::ViolationLow, (bits % 0x100) as u8);
        self.set(Register::ViolationMiddle, (bits / 0x100 % 0x100) as u8);
        self.set(Register::ViolationHigh, (bits / 0x10000 % 0x100) as u8);
        self.raise(Cause::Violation);
    }

    fn command(&mut self, number: u8) -> Result<(), Refusal>
        ensures answer { result ≡ write_answer 0x00 number (view self.old) }
        ensures after { view self.new ≡ write_done 0x00 number (view self.old) }
    {
        let state = State::try_from(number)?;
        match (self.state, state) {
            (State::Suspend | State::Off, _) => Err(Refusal::Asleep),
            (_, State::Suspend | State::Off) if self.interrupts() => Err(Refusal::CausePending),
            (_, _) => {
                self.enter(state);
                Ok(())
            }
        }
    }

    fn store(&mut self, register: Register, value: u8) -> Result<(), Refusal>
        requires { (index register == 0) ≡ false }
        ensures answer { result ≡ write_answer (index register) value (view self.old) }
        ensures after { view self.new ≡ write_done (index register) value (view self.old) }
    {
        self.check_awake()?;
        if register.is_write_protected() {
            return Err(Refusal::RegisterNotWritable);
        }
        self.set(register, value);
        if self.state.has_load(register) {
            self.reload();
        }
        Ok(())
    }

    // Enters the state, even if it is the present one.
    pub(crate) fn enter(&mut self, state: State)
        requires { (if asleep state then slice_index self.old.registers 5 else 0) ≡ 0 }
        ensures { view self.new ≡ entered state (view self.old) }
    {
        if state.asleep() {
            self.edges = 0;
        }
        self.state = state;
        self.reload();
    }

    // Sets the idle counter by the load of the present state.
    pub(crate) fn reload(&mut self)
        ensures { view self.new ≡ reloaded (view self.old) }
    {
        let load = match self.state.load() {
            Some(register) => self.get(register),
            None => 0,
        };
        self.idle = TICKS_PER_LOAD * u16::from(load);
    }

    // Gives the cause: it arises unless it is masked. That the unit is awake is asked of the callers, all in this crate,
    // each of which has just matched the state: a type for an awake unit would be made only for this call.
    pub(crate) fn raise(&mut self, cause: Cause)
        requires { asleep self.old.state ≡ false }
        ensures { view self.new ≡ raised cause (view self.old) }
    {
        if cause.is_maskable() && self.masks(cause) {
            return;
        }
        let causes = self.get(Register::Cause) | cause.flag();
        self.set(Register::Cause, causes);
    }

    // Whether MASK has the bit of the cause.
    pub(crate) fn masks(&self, cause: Cause) -> bool
        ensures { result ≡ bit (position cause) (mask (view self.now)) }
    {
        bit(cause.position(), self.get(Register::Mask))
    }

    fn take_causes(&mut self) -> u8
        ensures value { result ≡ cause (view self.old) }
        ensures after { view self.new ≡ put 0x05 0 (view self.old) }
    {
        let causes = self.get(Register::Cause);
        self.set(Register::Cause, 0);
        causes
    }

    // In Suspend and Off no cause is set.
    fn set(&mut self, register: Register, value: u8)
        requires { asleep self.old.state ≡ true → index register ≡ 5 → value ≡ 0 }
        ensures { view self.new ≡ put (index register) value (view self.old) }
    {
        self.registers[register.index()] = value;
    }

    pub(crate) fn get(&self, register: Register) -> u8
        ensures { result ≡ (view self.now).table (index register) }
    {
        self.registers[register.index()]
    }
}

// Bit k of a register's value.
pub(crate) fn bit(k: u8, value: u8) -> bool
    requires { k < 8 }
    ensures { result ≡ bit k value }
{
    (value >> k) % 2 == 1
}

// A well-formed frame, by what it asks for.
use registers::{Event, Register};
use terms::{CpuAddress, CpuPage};

#[derive(Clone, Copy, Debug, PartialEq, Eq)]
pub enum Command {
    Reset,
    RegisterWrite(Register, u8),
    RegisterRead(Register),
    PageWrite(CpuPage, u16),
    PageRead(CpuPage),
    CpuWrite(CpuAddress, u8),
    CpuRead(CpuAddress),
    Input(Event),
}

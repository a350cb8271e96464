// An engine with RAM and nothing else, and what is printed of it.
use crate::frame::Frame;
use frames::Answer;
use machine::{Devices, Engine};
use ram::Ram;
use rom::Empty;
use std::str::from_utf8;

#[derive(Drop)]
pub struct Bench<'a> {
    rt: &'a HostRuntime,
    engine: Engine<Devices<Ram<'a>, Empty, Empty, Empty>>,
}

impl<'a> Bench<'a> {
    pub fn new(rt: &'a HostRuntime, bytes: &'a mut [u8]) -> Bench<'a> {
        let engine = Engine::new(Devices {
            ram: Ram::new(bytes),
            rom: Empty,
            card_a: Empty,
            card_b: Empty,
        });
        Bench { rt, engine }
    }

    // Hands one frame in, and prints it with its answer and why it was handed in.
    pub fn act(&mut self, frame: Frame, why: &str) -> anyhow::Result<Answer> {
        let rt = self.rt;
        let line = format!(in rt.alloc(); "{frame}")?;
        let answer = self.engine.frame(line.as_bytes());
        let spelled = answer.spell();
        let digits = from_utf8(&spelled)?.trim_end();
        println!(rt; "{line} {digits}  {why}")?;
        Ok(answer)
    }

    pub fn report(&self, expected: bool) -> anyhow::Result<()> {
        let outcome = if expected {
            "awake, and never in Off on the way"
        } else {
            "NOT AS EXPECTED"
        };
        println!(self.rt; "{outcome}")?;
        Ok(())
    }

    // A peak at the level that was read back, and whether it is judged as at the level that was stored.
    pub fn tell_peak(&self, peak: u16, level: u16, stored: u16) -> anyhow::Result<()> {
        let clipped = peak >= level;
        let now = if clipped { "clipped" } else { "not clipped" };
        let told = if clipped == (peak >= stored) {
            "as before"
        } else {
            "NOT AS BEFORE"
        };
        println!(self.rt; "peak {peak:02X}h at level {level:02X}h: {now}, {told}")?;
        Ok(())
    }
}

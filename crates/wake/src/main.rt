// A watch timer's level table in RAM, over a Suspend that the telephone and the button end within one clock sample,
// and over one that the alarm ends. A peak is clipped where it reaches the level of its channel; a clipped peak says
// nothing of the balance.
#![tactic(auto)]

mod bench;
mod frame;

use bench::Bench;
use frame::Frame;
use frames::Kind;
use registers::{Register, State};

// A channel of the timer.
#[derive(Clone, Copy)]
struct Channel {
    // Where its level stands in the processor's memory.
    address: u32,
    level: u16,
    // A peak that was measured on it.
    peak: u16,
}

const CHANNELS: [Channel; 4] = [
    Channel {
        address: 0x00100,
        level: 0xC8,
        peak: 0xD0,
    },
    Channel {
        address: 0x00101,
        level: 0xD2,
        peak: 0xC0,
    },
    Channel {
        address: 0x00102,
        level: 0xDC,
        peak: 0xF0,
    },
    Channel {
        address: 0x00103,
        level: 0xE6,
        peak: 0xE6,
    },
];

// What is chosen for Suspend: what may end it, and the power outputs in it.
#[derive(Clone, Copy)]
struct Choice {
    wake: u16,
    outputs: u16,
}

fn main(rt: HostRuntime) -> anyhow::Result<()> {
    tell_all(&rt)
}

fn tell_all(rt: &HostRuntime) -> anyhow::Result<()> {
    println!(rt; "With RAM powered in Suspend:")?;
    let one_ring = Choice {
        wake: 0x01,
        outputs: 0x02,
    };
    tell(rt, one_ring, |bench| ring_and_press(bench))?;
    println!(rt; "With RAM unpowered in Suspend:")?;
    let unpowered = Choice {
        outputs: 0x00,
        ..one_ring
    };
    tell(rt, unpowered, |bench| ring_and_press(bench))?;
    println!(rt; "With RAM powered in Suspend, and only the alarm enabled:")?;
    let alarm = Choice {
        wake: 0x08,
        ..one_ring
    };
    tell(rt, alarm, |bench| ring_and_alarm(bench))
}

// The whole story, with what is chosen for Suspend, and what ends it.
fn tell<F: FnOnce(&mut Bench) -> anyhow::Result<()>>(
    rt: &HostRuntime,
    choice: Choice,
    end: F,
) -> anyhow::Result<()>
    requires { F.IsAlwaysCallable end }
{
    let mut bytes = vec![in rt.alloc(); 0u8; 16_384]?;
    let mut bench = Bench::new(rt, bytes.as_mut_slice());
    load(&mut bench)?;
    suspend(&mut bench, choice)?;
    end(&mut bench)?;
    judge(&mut bench)
}

fn load(bench: &mut Bench) -> anyhow::Result<()> {
    bench.act(Frame::new(Kind::PageWrite, 0, 0x8000), "map page 0 to RAM")?;
    for channel in CHANNELS {
        let store = Frame::new(Kind::CpuWrite, channel.address, channel.level);
        bench.act(store, "store a level")?;
    }
    Ok(())
}

fn suspend(bench: &mut Bench, choice: Choice) -> anyhow::Result<()> {
    bench.act(
        Frame::write(Register::Wake, choice.wake),
        "choose what may wake",
    )?;
    bench.act(
        Frame::write(Register::SuspendOutputs, choice.outputs),
        "choose the outputs in Suspend",
    )?;
    bench.act(
        Frame::input(Kind::Tick, 0),
        "a clock sample finds the button low",
    )?;
    bench.act(Frame::input(Kind::Tick, 0), "and another")?;
    bench.act(
        Frame::write(Register::State, u16::from(State::Suspend.number())),
        "suspend",
    )?;
    Ok(())
}

// No clock sample comes between the two.
fn ring_and_press(bench: &mut Bench) -> anyhow::Result<()> {
    let rung = bench.act(Frame::input(Kind::Ring, 1), "the telephone rings")?;
    let pressed = bench.act(Frame::input(Kind::Ext, 1), "the button is pressed")?;
    bench.report(rung.state == State::On && pressed.state == State::On)
}

// The ring count is 0, so the telephone does not wake.
fn ring_and_alarm(bench: &mut Bench) -> anyhow::Result<()> {
    let rung = bench.act(Frame::input(Kind::Ring, 1), "the telephone rings")?;
    let alarmed = bench.act(Frame::input(Kind::Alarm, 0), "the alarm goes off")?;
    bench.report(rung.state == State::Suspend && alarmed.state == State::On)
}

// Reads the table back, and says of each peak whether it is still taken as clipped.
fn judge(bench: &mut Bench) -> anyhow::Result<()> {
    for channel in CHANNELS {
        let load = Frame::new(Kind::CpuRead, channel.address, 0);
        let level = bench.act(load, "read a level back")?.value();
        bench.tell_peak(channel.peak, level, channel.level)?;
    }
    Ok(())
}

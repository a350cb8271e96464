// Answers event frames from standard input on standard output, on a fixed board.
#![tactic(auto)]

mod fault;

use board::Memory;
use fault::Fault;
use frames::ANSWER_LENGTH;
use std::env;
use std::io::{ErrorKind, Read, Write};
use std::process::ExitCode;

// How much is read at a time.
const BLOCK: usize = 65536;

// Room for the answers of a block, should each of its bytes end a line.
const ROOM: usize = ANSWER_LENGTH * BLOCK;

fn main(rt: HostRuntime) -> ExitCode {
    match start(&rt) {
        Ok(()) => ExitCode::SUCCESS,
        Err(fault) => {
            let _ = eprintln!(rt; "engine: {fault}");
            ExitCode::FAILURE
        }
    }
}

fn start(rt: &HostRuntime) -> Result<(), Fault> {
    let mut words = env::args(rt).map_err(Fault::Arguments)?;
    let _ = words.next();
    match words.next() {
        None => run(rt),
        Some(word) if word.as_str() == "--help" => help(rt),
        Some(_) => Err(Fault::Usage),
    }
}

fn help(rt: &HostRuntime) -> Result<(), Fault> {
    println!(rt; "usage: engine < FRAMES > ANSWERS")?;
    println!(rt; "A frame is a line of twelve digits 0-9, A-F: two of kind, six of a, four of v.")?;
    println!(rt;
        "Each line is answered by one line: two digits of number (00 taken), four of value"
    )?;
    println!(rt;
        "read, two of state, two of power outputs, two of interrupt. docs/RULES.md has the rules."
    )?;
    Ok(())
}

// Each block is answered before the next is read.
fn run(rt: &HostRuntime) -> Result<(), Fault> {
    let mut memory = Memory::new(rt.alloc())?;
    let mut link = memory.link();
    let mut block = vec![in rt.alloc(); 0u8; BLOCK]?;
    let mut out = vec![in rt.alloc(); 0u8; ROOM]?;
    // Counted, so that the loop has an end; no input is so long.
    for _ in 0..u64::MAX {
        let n = match rt.stdin().read(block.as_mut_slice()) {
            Ok(n) => n,
            Err(e) if e.kind() == ErrorKind::Interrupted => continue,
            Err(e) => return Err(Fault::Input(e)),
        };
        if n == 0 {
            break;
        }
        // There is room for every byte's answer, so the whole block is taken.
        let written = link.receive(&block[0..n], out.as_mut_slice()).written;
        send(rt, &out[0..written])?;
    }
    match link.finish() {
        Some(answer) => send(rt, &answer.spell()),
        None => Ok(()),
    }
}

// Standard output has no buffer, so nothing is held back.
fn send(rt: &HostRuntime, answers: &[u8]) -> Result<(), Fault> {
    rt.stdout().write_all(answers)?;
    Ok(())
}

// What ends the program before its input.
use std::alloc::AllocError;
use std::io;
use thiserror::Error;

#[derive(Debug, Drop, Error)]
pub enum Fault {
    #[error("no argument is known but --help; frames come on standard input")]
    Usage,
    #[error("cannot read the arguments: {0}")]
    Arguments(io::Error),
    #[error("cannot read standard input: {0}")]
    Input(io::Error),
    #[error("cannot write standard output: {0}")]
    Output(#[from] io::Error),
    #[error("out of memory")]
    Memory(#[from(alloc)] AllocError),
}

// What can go wrong in a program.
use std::alloc::AllocError;
use std::io;
use thiserror::Error;

#[derive(Debug, Drop, Error)]
pub enum Error {
    // The file cannot be read.
    #[error("{path}: {error}")]
    File { path: String, error: io::Error },
    // The file of this path ends inside a number.
    #[error("{0}: it ends inside a number of four bytes")]
    CutShort(String),
    #[error("{0} is no number of a kind")]
    NotAKind(String),
    #[error("there is no option {0}")]
    NoSuchOption(String),
    // There are too few words or too many; the text says which the program takes.
    #[error("{0}: see --help")]
    Usage(&'static str),
    // What the program cannot do yet.
    #[error("{0} is not implemented yet")]
    NotYet(&'static str),
    #[error(transparent)]
    Io(#[from] io::Error),
    #[error(transparent)]
    Memory(#[from(alloc)] AllocError),
}

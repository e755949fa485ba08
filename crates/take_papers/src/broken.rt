// Why a stream of papers cannot be read on.
use crate::stream::MOST;
use std::io;
use thiserror::Error;

#[derive(Debug, Drop, Error)]
pub(crate) enum Broken {
    // The next paper has so many numbers, which is more than a paper may have.
    #[error("{0} numbers are more than {MOST}")]
    TooLong(u64),
    #[error("the stream ends inside its length")]
    InLength,
    #[error("the stream ends inside it")]
    InPaper,
    // The input cannot be read.
    #[error(transparent)]
    Unread(io::Error),
}

// Why not all papers were answered.
#[derive(Debug, Drop, Error)]
pub(crate) enum Failure {
    #[error(transparent)]
    Program(#[from] programs::Error),
    // The answers cannot be written.
    #[error(transparent)]
    Unwritten(#[from] io::Error),
    #[error("paper {number}: {broken}")]
    Paper { number: u64, broken: Broken },
}

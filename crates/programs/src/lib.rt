// What the programs share: command lines, and files of numbers.
#![tactic(auto)]

mod bytes;
mod ending;
mod error;
mod file;
mod kind;
mod line;
mod program;

// Command lines, and how a program ends.
pub use ending::finish;
pub use error::Error;
pub use kind::kind_of;
pub use line::{Command, parse};
pub use program::{Answer, Program};
// Files and streams of numbers.
pub use bytes::{numbers, numbers_into};
pub use file::row_of;

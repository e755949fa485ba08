// Papers as rows of numbers: reading them from front to end, how deep they are, and why a row is none.
//
// A paper is a number, a list of papers, or a record of named papers, by rising name. As a row of numbers it is `0 n`,
// `1 count papers..` or `2 count (name paper)..`, every number, name and count below 2^32.
#![tactic(auto)]

mod depth;
mod entry;
mod fold;
mod laws;
mod reading;
mod refusal;
mod shape;

// A paper at the front of a row, and a row that is one paper.
pub use entry::{DEEPEST, read, read_front, read_whole};
pub use reading::{Fault, Part, Why, read_paper};
// The steps of a reading.
pub use reading::{Opening, number_from, open_paper};
// What is made of a paper.
pub use depth::Depth;
pub use fold::Fold;
// The shapes of papers.
pub use shape::{NoShape, Shape};
// What is turned away, for all the crates above.
pub use refusal::Refusal;
// The laws of rows.
pub use laws::{only_written, prefix_free, round_trip, row_injective};

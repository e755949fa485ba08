// Whether a form takes a paper, in one reading of the paper's row.
#![tactic(auto)]

mod entry;
mod fields;
mod group;
mod kinds;
mod laws;
mod mask;
mod progress;
mod reading;
mod seen;
mod shapes;
mod sorted;
mod sorting;

// Whether a form takes the paper that a row is.
pub use entry::{Taking, take, take_as, take_in};
pub use sorted::SortedForm;
// Sets of kinds.
pub use mask::{first_kinds, holds, with};
// What holds of taking, for all forms and papers.
pub use laws::{moved_takes, new_field, wider, within_order};

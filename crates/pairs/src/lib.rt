// Which pairs of a kind of one form and a set of kinds of another have a paper, round by round.
#![tactic(auto)]

mod finding;
mod laws;
mod minimal;
mod node;
mod pair;
mod putting;
mod round;
mod table;

pub use laws::{
    adds_nothing, always_decided, appending, dominated, empty_seen, exact_next, flat_enough,
    flattest_shown, kinds_by_parts, next_round, round_complete, round_monotone, round_sound,
};
pub use node::{Field, Node};
pub use table::Table;

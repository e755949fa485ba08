// Forms in lent memory.
//
// A form says for each of its kinds of paper in which ways such a paper may look: as a number in a range, as a list of papers
// of one kind, or as a record with named places. It is lent as a row of numbers, and is never copied: a `FormView` is such a
// row, once it is known to be a form.
#![tactic(auto)]

mod asked;
mod blame;
mod checking;
mod layout;
mod reading;
mod room;
mod view;
mod walking;
mod way;

pub use asked::{kinds_of, one_form, two_forms};
pub use blame::{Side, side_of};
pub use room::Room;
pub use view::{Asked, FormView, Places, WayView, Ways};
pub use way::{Place, Way};

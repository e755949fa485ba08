// What holds of taking, for all forms and papers: functions that have nothing but their contracts.
ghost use Rattle.taking.specs.Within.{WithinOrder, Wider, NewField, MovedTakes};

// To take no more is an order, and forms that take no more than each other take the same papers.
pub fn within_order()
    ensures { WithinOrder }
{}

// A way added to a kind loses no paper, at any kind.
#[tactic(auto, using(crate::proofs::Changing::wider))]
pub fn wider()
    ensures { Wider }
{}

// A place behind the others that need not be filled loses no paper; one that must be filled loses all that were taken.
pub fn new_field()
    ensures { NewField }
{}

// Kinds may be numbered anew.
#[tactic(auto, using(crate::proofs::Moving::moved_takes))]
pub fn moved_takes()
    ensures { MovedTakes }
{}

// The laws of rows, each on the contract of a function that does nothing else.
ghost use Rattle.papers.specs.Laws.{RoundTrip, OnlyWritten, RowInjective, PrefixFree};

// A written paper that is read again is the same paper.
#[tactic(auto, using(crate::proofs::Answering::round_trip))]
pub fn round_trip()
    ensures { RoundTrip }
{}

// What is read is a written paper.
#[tactic(auto, using(crate::proofs::Answering::only_written))]
pub fn only_written()
    ensures { OnlyWritten }
{}

// Two papers with the same row are the same.
#[tactic(auto, using(crate::proofs::Answering::row_injective))]
pub fn row_injective()
    ensures { RowInjective }
{}

// No paper's row is a proper front of another's.
#[tactic(auto, using(crate::proofs::Answering::prefix_free))]
pub fn prefix_free()
    ensures { PrefixFree }
{}

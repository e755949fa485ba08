// What holds of rounds and of comparing, for all forms and papers: functions that have nothing but their contracts.
ghost use Rattle.pairs.specs.Laws.{KindsByParts, RoundComplete, RoundSound, RoundMonotone, Dominated, ExactNext, NextRound, AddsNothing, AlwaysDecided, FlattestShown, EmptySeen, FlatEnough};
ghost use Rattle.pairs.specs.Nodes.{Appending};

// The kinds of a paper are a function of the kinds of its parts.
#[tactic(auto, using(crate::proofs::Looking::kinds_by_parts))]
pub fn kinds_by_parts()
    ensures { KindsByParts }
{}

// The round is complete: a pair that has a paper at most r + 1 deep is given over those that have one at most r deep.
#[tactic(auto, using(crate::proofs::Rounding::round_complete))]
pub fn round_complete()
    ensures { RoundComplete }
{}

// The round is sound: a pair that is given has a paper, one deeper at most.
#[tactic(auto, using(crate::proofs::Rounding::round_sound))]
pub fn round_sound()
    ensures { RoundSound }
{}

// More marks give no less.
pub fn round_monotone()
    ensures { RoundMonotone }
{}

// Dominated sets need not be kept.
pub fn dominated()
    ensures { Dominated }
{}

// Exact marks are exact after a round, for papers one deeper.
pub fn exact_next()
    ensures { ExactNext }
{}

// Marks that have one under every pair with a paper have one after a round, for papers one deeper.
pub fn next_round()
    ensures { NextRound }
{}

// Marks that a round adds nothing to miss no paper, of any depth.
pub fn adds_nothing()
    ensures { AddsNothing }
{}

// Of any two forms, either every paper that the one takes the other takes too, or there is a paper that only the one takes, no deeper than
// the kinds of the one times the sets of kinds of the other.
pub fn always_decided()
    ensures { AlwaysDecided }
{}

// The same, and the paper is one of the flattest.
pub fn flattest_shown()
    ensures { FlattestShown }
{}

// A kind takes no paper at all, or one that is no deeper than there are kinds.
pub fn empty_seen()
    ensures { EmptySeen }
{}

// For every paper that only the one takes there is one that is no deeper than it, and no deeper than the bound.
#[tactic(auto, using(crate::proofs::Deciding::flat_enough))]
pub fn flat_enough()
    ensures { FlatEnough }
{}

// A node more is a paper more, and the papers before it stay as they are.
#[tactic(auto, using(crate::proofs::Telling::appending))]
pub fn appending()
    ensures { Appending }
{}

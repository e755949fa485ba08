// Which of two forms a refusal speaks of.
ghost use Rattle.std.specs.Prelude.{◌≡◌, ℕ, List, Some, Err};
ghost use Rattle.papers.specs.Refusals.{number_of, place_of};
ghost use Rattle.forms.specs.Asked.{two_asked};
ghost use Rattle.forms.specs.Sides.{Speaks, side_name};

use crate::asked::one_form;
use crate::room::Room;
use papers::Refusal;
use std::fmt;

#[derive(Clone, Copy, Debug, PartialEq, Eq)]
pub enum Side {
    First,
    Second,
}

// `first` or `second`.
impl fmt::Display for Side {
    ghost output = { λ side. Some (side_name side) };

    fn fmt<W: fmt::Write>(&self, f: &mut fmt::Formatter<W>) -> fmt::Result {
        f.write_str(match self {
            Side::First => "first",
            Side::Second => "second",
        })
    }
}

// Which form a refusal of `two_forms` speaks of, where `one` was the first form and `k` the kind asked of it.
pub fn side_of(one: &[u64], k: u64, refusal: Refusal) -> Side
    ensures { (two : List ℕ) (j : ℕ) → Err (number_of refusal, place_of refusal) ≡ two_asked one.now two k j → Speaks result one.now two k j }
{
    match refusal {
        Refusal::SecondForm(_) => Side::Second,
        Refusal::NoKind(_) => match one_form(one, Room::Plain, k) {
            Ok(_) => Side::Second,
            Err(_) => Side::First,
        },
        _ => Side::First,
    }
}

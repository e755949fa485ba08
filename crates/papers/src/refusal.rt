// Why something was turned away: one case for each number of the fixed list, with its place.
ghost use Rattle.std.specs.Prelude.{◌≡◌};
ghost use Rattle.papers.specs.Refusals.{number_of, place_of};

use std::error::Error;
use std::fmt;

#[derive(Clone, Copy, Debug, PartialEq, Eq)]
pub enum Refusal {
    // 1: the first form is none. The first kind at fault, or 4 for the count of kinds or a row cut short.
    FirstForm(u64),
    // 2: the second form is none. The place is as for the first.
    SecondForm(u64),
    // 3: a kind asked about is not there. The kind.
    NoKind(u64),
    // 4: the row lent for the result is too short. Its length.
    NoRoom(u64),
    // 5: the row is no paper. The place of the first number that is wrong.
    NotPaper(u64),
    // 6: the paper is more than 256 deep. The place where the next level begins.
    TooDeep(u64),
    // 7: a shown paper given back is none. The first node at fault.
    BadNode(u64),
}

impl Refusal {
    // The number in the fixed list: by hand, since no derive numbers cases that hold their place.
    pub fn number(&self) -> u64
        ensures { result ≡ number_of self.now }
    {
        match *self {
            Refusal::FirstForm(_) => 1,
            Refusal::SecondForm(_) => 2,
            Refusal::NoKind(_) => 3,
            Refusal::NoRoom(_) => 4,
            Refusal::NotPaper(_) => 5,
            Refusal::TooDeep(_) => 6,
            Refusal::BadNode(_) => 7,
        }
    }

    // The place, which each case holds: by hand, since a derive hands out no field that all cases have.
    pub fn place(&self) -> u64
        ensures { result ≡ place_of self.now }
    {
        match *self {
            Refusal::FirstForm(place)
            | Refusal::SecondForm(place)
            | Refusal::NoKind(place)
            | Refusal::NoRoom(place)
            | Refusal::NotPaper(place)
            | Refusal::TooDeep(place)
            | Refusal::BadNode(place) => place,
        }
    }
}

// `refused 5 at 3`.
impl fmt::Display for Refusal {
    fn fmt<W: fmt::Write>(&self, f: &mut fmt::Formatter<W>) -> fmt::Result {
        let number = self.number();
        let place = self.place();
        write!(f, "refused {number} at {place}")
    }
}

impl Error for Refusal {}

// The entries: a paper at the front of a row, and a row that is one paper.
ghost use Rattle.papers.specs.Reading.{into, read_row};
ghost use Rattle.std.specs.Prelude.{◌≡◌, ◌-◌};
ghost use Rattle.papers.specs.Refusals.{number_of, place_of};
ghost use Rattle.papers.specs.Telling.{Told, FrontTold, RowTold, number_for};

use crate::depth::Depth;
use crate::fold::Fold;
use crate::reading::{Fault, Part, Why, read_paper};
use crate::refusal::Refusal;

// How deep a paper may be.
pub const DEEPEST: u64 = 256;

impl Fault {
    // The refusal for a row of this length.
    pub fn refusal(&self, length: usize) -> Refusal
        ensures number { number_of result ≡ number_for self.now.why }
        ensures place { place_of result ≡ length - self.now.left }
    {
        let place = length.saturating_sub(self.left) as u64;
        match self.why {
            Why::NoPaper => Refusal::NotPaper(place),
            Why::Deeper => Refusal::TooDeep(place),
        }
    }
}

// A paper at the front of a row, at most `levels` deep: how deep it is, and the rest of the row.
pub fn read_front(row: &[u64], levels: u64) -> Result<Part<'_, u64>, Fault>
    ensures { FrontTold levels row.now result }
{
    read_paper(&Depth, row, levels)
}

// What is made of the paper that a whole row is, with nothing behind it.
pub fn read_whole<'a, F: Fold>(fold: &F, row: &'a [u64]) -> Result<Part<'a, F::Value>, Fault>
    ensures { Told (into (F.of fold.now) (read_row row.now)) result }
{
    let paper = read_paper(fold, row, DEEPEST)?;
    let [] = paper.rest else {
        return Err(Fault::at(paper.rest, Why::NoPaper));
    };
    Ok(paper)
}

// The paper that a whole row is: how deep it is, or why the row is none.
pub fn read(row: &[u64]) -> Result<u64, Refusal>
    ensures { RowTold row.now result }
{
    // A `match`: with `map` and `map_err` each case has to be shown again, and it is no plainer.
    match read_whole(&Depth, row) {
        Ok(paper) => Ok(paper.value),
        Err(fault) => Err(fault.refusal(row.len())),
    }
}

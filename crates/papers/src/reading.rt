// Reading a paper from the front of a part of a row: three functions that call each other, each over what is left of the
// row, and each giving back the rest.
ghost use Rattle.std.specs.Prelude.{◌≡◌, ◌<◌, ◌≤◌, ◌⊎◌, length, MatchOption};
ghost use Rattle.papers.specs.Paper.{items, fields};
ghost use Rattle.papers.specs.Reading.{into, number_from, read_list, read_record, read_paper};
ghost use Rattle.papers.specs.Row.{limit};
ghost use Rattle.papers.specs.Telling.{Opened, Told};

use crate::fold::Fold;
use crate::shape::Shape;

// Every number, name and count of a row is below this.
const LIMIT: u64 = 0x1_0000_0000;

#[derive(Clone, Copy, Debug, PartialEq, Eq)]
pub enum Why {
    // Cut short, an unknown start, a name that does not rise, or a number that is too large.
    NoPaper,
    // A paper begins one level below the deepest that is allowed.
    Deeper,
}

// Why a reading failed, and how much of the row was left from the number at fault on.
#[derive(Clone, Copy, Debug, PartialEq, Eq)]
pub struct Fault {
    pub why: Why,
    pub left: usize,
}

impl Fault {
    // The fault of a reading that fails at the front of this row.
    pub(crate) fn at(row: &[u64], why: Why) -> Fault
        ensures { result ≡ record { why = why; left = length row.now } }
    {
        Fault {
            why,
            left: row.len(),
        }
    }
}

// What a reading gave: a number, or what it made of a paper; and the rest of the row.
#[derive(Clone, Copy, Debug, PartialEq, Eq)]
pub struct Part<'a, T> {
    pub value: T,
    pub rest: &'a [u64],
}

// The start of a paper: its shape, how deep the papers in it may be, and the rest of the row.
#[derive(Clone, Copy)]
pub struct Opening<'a> {
    pub shape: Shape,
    pub below: u64,
    pub rest: &'a [u64],
}

// The number, if it is at least `low` and below the limit.
fn within(number: u64, low: u64) -> Option<u64>
    ensures { MatchOption result ((number < low) ⊎ (limit ≤ number)) (λ n. (n ≡ number) × (low ≤ number) × (number < limit)) }
{
    if low <= number && number < LIMIT {
        Some(number)
    } else {
        None
    }
}

// The next number, at least `low` and below the limit.
pub fn number_from(row: &[u64], low: u64) -> Result<Part<'_, u64>, Fault>
    ensures { Told (number_from low row.now) result }
{
    let [first, rest @ ..] = row else {
        return Err(Fault::at(row, Why::NoPaper));
    };
    let Some(value) = within(*first, low) else {
        return Err(Fault::at(row, Why::NoPaper));
    };
    Ok(Part { value, rest })
}

// The start of a paper that is at most `levels` deep.
pub fn open_paper(row: &[u64], levels: u64) -> Result<Opening<'_>, Fault>
    ensures { Opened levels row.now result }
{
    let [first, rest @ ..] = row else {
        return Err(Fault::at(row, Why::NoPaper));
    };
    let Ok(shape) = Shape::try_from(*first) else {
        return Err(Fault::at(row, Why::NoPaper));
    };
    let Some(below) = levels.checked_sub(1) else {
        return Err(Fault::at(row, Why::Deeper));
    };
    Ok(Opening { shape, below, rest })
}

// What is made of a paper that is at most `levels` deep, and the rest.
#[cycle(reading)]
pub fn read_paper<'a, F: Fold>(
    fold: &F,
    row: &'a [u64],
    levels: u64,
) -> Result<Part<'a, F::Value>, Fault>
    ensures { Told (into (F.of fold.now) (read_paper levels row.now)) result }
{
    let opening = open_paper(row, levels)?;
    match opening.shape {
        Shape::Number => {
            let number = number_from(opening.rest, 0)?;
            Ok(Part {
                value: fold.number(number.value),
                rest: number.rest,
            })
        }
        // Each part is taken out and put back: handed on whole, with room for a fault beside it, it is slower by a quarter.
        Shape::List => {
            let list = read_list(fold, opening.rest, opening.below)?;
            Ok(list)
        }
        Shape::Record => {
            let record = read_record(fold, opening.rest, opening.below)?;
            Ok(record)
        }
    }
}

// What is made of a list of which the start is read, its papers at most `levels` deep, and the rest.
#[cycle(reading)]
fn read_list<'a, F: Fold>(
    fold: &F,
    row: &'a [u64],
    levels: u64,
) -> Result<Part<'a, F::Value>, Fault>
    ensures { Told (into (λ ds. F.of fold.now (items ds)) (read_list (read_paper levels) row.now)) result }
{
    let count = number_from(row, 0)?;
    let mut papers = fold.no_papers();
    let mut rest = count.rest;
    for _ in 0..count.value {
        let paper = read_paper(fold, rest, levels)?;
        papers = fold.with_paper(papers, paper.value);
        rest = paper.rest;
    }
    Ok(Part {
        value: fold.list(count.value, papers),
        rest,
    })
}

// What is made of a record of which the start is read, the papers in it at most `levels` deep, and the rest.
#[cycle(reading)]
fn read_record<'a, F: Fold>(
    fold: &F,
    row: &'a [u64],
    levels: u64,
) -> Result<Part<'a, F::Value>, Fault>
    ensures { Told (into (λ fs. F.of fold.now (fields fs)) (read_record (read_paper levels) row.now)) result }
{
    let count = number_from(row, 0)?;
    let mut so_far = fold.no_fields();
    let mut rest = count.rest;
    let mut low = 0;
    for _ in 0..count.value {
        let name = number_from(rest, low)?;
        let inner = read_paper(fold, name.rest, levels)?;
        fold.with_field(&mut so_far, name.value, inner.value);
        rest = inner.rest;
        low = name.value + 1;
    }
    Ok(Part {
        value: fold.record(&so_far),
        rest,
    })
}

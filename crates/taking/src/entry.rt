// The entries: whether a form takes the paper that a whole row is.
ghost use Rattle.forms.specs.declared.room.Room.TheVariants.{Plain};
ghost use Rattle.taking.specs.Sorted.{sorted_of};
ghost use Rattle.taking.specs.Answers.{Answered, TakeTold, taking_text};

use crate::mask::holds;
use crate::sorted::SortedForm;
use forms::{Room, one_form};
use papers::{Refusal, read_whole};
use std::fmt;

// Whether a form takes a paper: an enum and no `Result<bool, Refusal>`, since what an entry answers has a name for each case.
#[derive(Clone, Copy, Debug, PartialEq, Eq)]
pub enum Taking {
    Taken,
    NotTaken,
    Refused(Refusal),
}

// `taken`, `not taken`, or the refusal.
impl fmt::Display for Taking {
    ghost output = { taking_text };

    fn fmt<W: fmt::Write>(&self, f: &mut fmt::Formatter<W>) -> fmt::Result {
        match *self {
            Taking::Taken => f.write_str("taken"),
            Taking::NotTaken => f.write_str("not taken"),
            Taking::Refused(refusal) => refusal.fmt(f),
        }
    }
}

// Whether the form in a lent row takes the paper in another as kind k.
pub fn take(form: &[u64], row: &[u64], k: u64) -> Taking
    ensures { TakeTold Plain form.now row.now k result }
{
    take_in(form, Room::Plain, row, k)
}

// The same for a form in a row of any room.
pub fn take_in(form: &[u64], room: Room, row: &[u64], k: u64) -> Taking
    ensures { TakeTold room form.now row.now k result }
{
    match one_form(form, room, k) {
        Ok(asked) => take_as(&SortedForm::new(asked.form), row, asked.kind),
        Err(refusal) => Taking::Refused(refusal),
    }
}

// Whether a form that is known to be one, and sorted, takes the paper in a row as a kind. It takes nothing as a kind that it does
// not have.
pub fn take_as(form: &SortedForm<'_>, row: &[u64], kind: usize) -> Taking
    ensures { Answered (sorted_of form.now) row.now kind result }
{
    let kinds = match read_whole(form, row) {
        Ok(paper) => paper.value,
        Err(fault) => return Taking::Refused(fault.refusal(row.len())),
    };
    if kind < form.form.kinds() && holds(kinds, kind) {
        Taking::Taken
    } else {
        Taking::NotTaken
    }
}

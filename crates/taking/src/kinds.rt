// The kinds of a form that take a number, or a list, of which only as much is known as the form's ways look at.
ghost use Rattle.std.specs.Prelude.{◌≡◌};
ghost use Rattle.papers.specs.Paper.{num};
ghost use Rattle.taking.specs.Sorted.{sorted_of};
ghost use Rattle.taking.specs.Masks.{test, kinds_of, list_taken};

use crate::shapes::{ListSeen, NumberSeen};
use crate::sorted::SortedForm;
use forms::FormView;

impl<'a> SortedForm<'a> {
    // The form that is sorted.
    pub fn view(&self) -> FormView<'a>
        ensures { result ≡ self.now.form }
    {
        self.form
    }

    // The kinds that take a number.
    pub fn number_kinds(&self, number: u64) -> u16
        ensures { result ≡ kinds_of (sorted_of self.now) (num number) }
    {
        self.kinds_seen(&NumberSeen { number })
    }

    // The kinds that take a list of so many papers, where each of these kinds, and no other, takes them all.
    pub fn list_kinds(&self, count: u64, kinds: u16) -> u16
        ensures { result ≡ list_taken (sorted_of self.now) count (test kinds) }
    {
        self.kinds_seen(&ListSeen { count, kinds })
    }
}

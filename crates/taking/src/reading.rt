// The kinds of a form that take a paper, made while the paper is read: each number of its row is looked at once, and no paper is built.
ghost use Rattle.std.specs.Prelude.{⊤};
ghost use Rattle.papers.specs.declared.shape.Shape.TheVariants.{Record};
ghost use Rattle.taking.specs.Left.{list_last, record_last};
ghost use Rattle.taking.specs.Masks.{kinds_of};
ghost use Rattle.taking.specs.Sorted.{sorted_of, shaped_of};

use crate::mask::first_kinds;
use crate::progress::Records;
use crate::shapes::FieldSeen;
use crate::sorted::SortedForm;
use papers::Fold;

impl Fold for SortedForm<'_> {
    type Value = u16;

    type Fields = Records;

    ghost of = { λ s. kinds_of (sorted_of s) };

    ghost list_of = { λ s. list_last (sorted_of s) };

    ghost record_of = { λ s so_far. record_last (sorted_of s) (shaped_of Record s) so_far.ways };

    ghost has_room = { λ _ _. ⊤ };

    ghost room = { λ _ _ _. tt };

    fn number(&self, number: u64) -> u16 {
        self.number_kinds(number)
    }

    fn no_papers(&self) -> u16 {
        first_kinds(self.form.kinds())
    }

    fn with_paper(&self, papers: u16, paper: u16) -> u16 {
        papers & paper
    }

    fn list(&self, count: u64, papers: u16) -> u16 {
        self.list_kinds(count, papers)
    }

    fn no_fields(&self) -> Records {
        Records::new()
    }

    fn with_field(&self, so_far: &mut Records, name: u64, inner: u16) {
        so_far.advance(self, FieldSeen { name, kinds: inner });
    }

    fn record(&self, so_far: &Records) -> u16 {
        self.kinds_seen(so_far)
    }
}

// A form whose ways are sorted by their shape, so that a paper is held only against the ways that it could fit.
ghost use Rattle.forms.specs.View.{form_of};
ghost use Rattle.papers.specs.declared.shape.Shape.{Shape};
ghost use Rattle.taking.specs.Groups.{Lists};
ghost use Rattle.taking.specs.Listing.{by_shape};

use crate::group::{Group, WayAt};
use forms::FormView;
use papers::Shape;

#[derive(Clone, Copy)]
pub struct SortedForm<'a> {
    pub(crate) form: FormView<'a>,
    pub(crate) numbers: Group,
    pub(crate) lists: Group,
    pub(crate) records: Group,
    ghost sorted: { (shape : Shape) → Lists shape (form_of form) (by_shape shape numbers lists records) },
}

impl<'a> SortedForm<'a> {
    ghost use Rattle.std.specs.Prelude.{◌≡◌};
    ghost use Rattle.taking.specs.Sorted.{sorted_of, shaped_of};

    // The ways of one shape, all of them and no others.
    pub(crate) fn ways(&self, shape: Shape) -> &[WayAt]
        ensures is { result.now ≡ shaped_of shape self.now }
        ensures all { Lists shape (sorted_of self.now) result.now }
    {
        match shape {
            Shape::Number => self.numbers.ways(),
            Shape::List => self.lists.ways(),
            Shape::Record => self.records.ways(),
        }
    }
}

// What is kept of a paper while it is read, and the kinds of a form that take it.
ghost use Rattle.std.specs.Prelude.{◌≡◌, ℕ, ◌<◌, Bool};
ghost use Rattle.papers.specs.declared.shape.Shape.{Shape};
ghost use Rattle.forms.specs.Form.{Way};
ghost use Rattle.taking.specs.Groups.{kinds_seen};
ghost use Rattle.taking.specs.Sorted.{sorted_of, shaped_of};
ghost use Rattle.forms.specs.View.{way_of};

use crate::mask::with;
use crate::sorted::SortedForm;
use forms::WayView;
use papers::Shape;

// As much of a paper as a way looks at.
pub(crate) trait Seen {
    // The shape of the ways that may take it.
    ghost SHAPE: { Shape };

    const SHAPE: Shape;

    // Whether a way takes it, which is way i of those that are listed.
    ghost sees: { Self → Way → ℕ → Bool };

    fn seen_by(&self, way: WayView<'_>, index: usize) -> bool
        requires { index < 144 }
        ensures { result ≡ sees self.now (way_of way.entry) index };
}

impl<'a> SortedForm<'a> {
    // The kinds of which a way takes what was seen.
    pub(crate) fn kinds_seen<S: Seen>(&self, seen: &S) -> u16
        ensures { result ≡ kinds_seen (S.sees seen.now) (sorted_of self.now) (shaped_of S.SHAPE self.now) }
    {
        let mut kinds = 0u16;
        for (index, at) in self.ways(S::SHAPE).iter().enumerate() {
            let kind = at.kind as usize;
            if seen.seen_by(self.form.way(kind, at.way as usize), index) {
                kinds = with(kinds, kind);
            }
        }
        kinds
    }
}

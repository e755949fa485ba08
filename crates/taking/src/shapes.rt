// What is kept of a number, of a list and of a record while it is read.
ghost use Rattle.papers.specs.declared.shape.Shape.TheVariants.{Number, List as ListShape, Record};
ghost use Rattle.taking.specs.Masks.{test};
ghost use Rattle.taking.specs.Advance.{progress_at, ends_well};
ghost use Rattle.taking.specs.Takes.{number_takes, list_takes, record_takes};

use crate::fields::ends_well;
use crate::mask::holds;
use crate::progress::Records;
use crate::seen::Seen;
use forms::{Way, WayView};
use papers::Shape;

#[derive(Clone, Copy)]
pub(crate) struct NumberSeen {
    pub(crate) number: u64,
}

// A list of so many papers, and the kinds that take each of them.
#[derive(Clone, Copy)]
pub(crate) struct ListSeen {
    pub(crate) count: u64,
    pub(crate) kinds: u16,
}

// A field of this name, and the kinds that take its paper.
#[derive(Clone, Copy)]
pub(crate) struct FieldSeen {
    pub(crate) name: u64,
    pub(crate) kinds: u16,
}

impl Seen for NumberSeen {
    ghost SHAPE = { Number };

    const SHAPE: Shape = Shape::Number;

    ghost sees = { λ s w i. number_takes s.number w };

    fn seen_by(&self, way: WayView<'_>, index: usize) -> bool {
        match way.read() {
            Way::Number { from, to } => from <= self.number && self.number <= to,
            Way::List { .. } | Way::Record { .. } => false,
        }
    }
}

impl Seen for ListSeen {
    ghost SHAPE = { ListShape };

    const SHAPE: Shape = Shape::List;

    ghost sees = { λ s w i. list_takes s.count (test s.kinds) w };

    fn seen_by(&self, way: WayView<'_>, index: usize) -> bool {
        match way.read() {
            Way::List { kind, least, most } => {
                least as u64 <= self.count && self.count <= most as u64 && holds(self.kinds, kind)
            }
            Way::Number { .. } | Way::Record { .. } => false,
        }
    }
}

impl Seen for Records {
    ghost SHAPE = { Record };

    const SHAPE: Shape = Shape::Record;

    ghost sees = { λ s w i. record_takes (ends_well (progress_at s.ways i)) w };

    fn seen_by(&self, way: WayView<'_>, index: usize) -> bool {
        ends_well(way, self.ways[index])
    }
}

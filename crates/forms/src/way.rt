// The parts of a form, one at a time.
ghost use Rattle.std.specs.Prelude.{◌≡◌};
ghost use Rattle.forms.specs.Form.{shape_of, shape_places};

use papers::Shape;

// One field that a record may have: its name, the kind of paper that stands there, and whether it must be filled.
#[derive(Clone, Copy, Debug, PartialEq, Eq)]
pub struct Place {
    pub name: u64,
    pub kind: usize,
    pub must: bool,
}

// One way in which a paper of a kind may look.
#[derive(Clone, Copy, Debug, PartialEq, Eq)]
pub enum Way {
    // A number in a range, both ends included.
    Number {
        from: u64,
        to: u64,
    },
    // A list of papers of one kind, at least and at most so many.
    List {
        kind: usize,
        least: usize,
        most: usize,
    },
    // A record with so many places; `WayView::place` reads them.
    Record {
        places: usize,
    },
}

impl Way {
    // The shape of the papers that it takes.
    pub fn shape(self) -> Shape
        ensures { result ≡ shape_of self }
    {
        match self {
            Way::Number { .. } => Shape::Number,
            Way::List { .. } => Shape::List,
            Way::Record { .. } => Shape::Record,
        }
    }

    // How many places: none, unless it is a record.
    pub(crate) fn places(self) -> usize
        ensures { result ≡ shape_places self }
    {
        match self {
            Way::Number { .. } | Way::List { .. } => 0,
            Way::Record { places } => places,
        }
    }
}

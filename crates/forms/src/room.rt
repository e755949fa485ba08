// How much room a row has: for how many kinds, and for how many ways of each.
ghost use Rattle.std.specs.Prelude.{◌≡◌};
ghost use Rattle.forms.specs.Layout.{room_kinds, room_ways};

#[derive(Clone, Copy, Debug, PartialEq, Eq)]
pub enum Room {
    // A form as it is lent: 4 kinds of 3 ways.
    Plain,
    // A form made of two, for what both take: 16 kinds of 9 ways.
    Both,
    // A form made of two, for what either takes: 9 kinds of 6 ways.
    Either,
}

// Two columns of one table, each asked for by itself.
impl Room {
    pub(crate) fn kinds(self) -> usize
        ensures { result ≡ room_kinds self }
    {
        match self {
            Room::Plain => 4,
            Room::Both => 16,
            Room::Either => 9,
        }
    }

    pub(crate) fn ways(self) -> usize
        ensures { result ≡ room_ways self }
    {
        match self {
            Room::Plain => 3,
            Room::Both => 9,
            Room::Either => 6,
        }
    }
}

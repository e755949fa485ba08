// Where the ways of one shape stand in a form.
ghost use Rattle.std.specs.Prelude.{◌≤◌};

// The most ways that any form has: 16 kinds of 9.
pub(crate) const WAYS: usize = 144;

// A way by its kind, and its index among the ways of that kind.
#[derive(Clone, Copy)]
pub(crate) struct WayAt {
    pub(crate) kind: u8,
    pub(crate) way: u8,
}

// All ways of one shape, so many at the front. It stands in a `SortedForm`, which is `Copy`, and an `ArrayVec` is not; nothing outside
// this file sees the count.
#[derive(Clone, Copy)]
pub(crate) struct Group {
    count: usize,
    ways: [WayAt; WAYS],
    ghost few: { count ≤ 144 },
}

impl Group {
    ghost use Rattle.std.specs.Prelude.{◌≡◌, ◌<◌, [], ◌∷◌, ◌++◌, length};
    ghost use Rattle.taking.specs.Listing.{ways_of};

    pub(crate) fn new() -> Group
        ensures { ways_of result ≡ [] }
    {
        Group {
            count: 0,
            ways: [WayAt { kind: 0, way: 0 }; WAYS],
        }
    }

    // Puts a way behind the others.
    pub(crate) fn push(&mut self, way: WayAt)
        requires { length (ways_of self.old) < 144 }
        ensures { ways_of self.new ≡ ways_of self.old ++ way ∷ [] }
    {
        self.ways[self.count] = way;
        self.count += 1;
    }

    pub(crate) fn ways(&self) -> &[WayAt]
        ensures { result.now ≡ ways_of self.now }
    {
        &self.ways[..self.count]
    }
}

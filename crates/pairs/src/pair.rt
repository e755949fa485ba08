// A kind of the first form, and a set of kinds of the second.
ghost use Rattle.std.specs.Prelude.{◌<◌};

#[derive(Clone, Copy)]
pub(crate) struct Pair {
    pub(crate) kind: usize,
    pub(crate) set: u16,
    ghost kind_there: { kind < 4 },
    ghost set_there: { set < 16 },
}

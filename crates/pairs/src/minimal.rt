// The minimal sets that were found of a kind.
use crate::table::SETS;
use arrayvec::ArrayVec;

// A set that was found, and its node.
#[derive(Clone, Copy, Default)]
pub(crate) struct Mark {
    pub(crate) set: u16,
    pub(crate) node: u8,
}

pub(crate) type Minimal = ArrayVec<Mark, SETS>;

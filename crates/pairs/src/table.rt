// What has been found so far: which pairs of a kind of the first form and a set of kinds of the second have a paper, and the paper's node.

use crate::node::{NODES, Node};

// How many kinds the first form has at most.
pub(crate) const KINDS: usize = 4;

// How many sets of kinds of the second form there are at most.
pub(crate) const SETS: usize = 16;

// For each set, the family of all sets that are inside it: bit s says that the set s is.
pub(crate) const INSIDE: [u16; SETS] = [
    0x0001, 0x0003, 0x0005, 0x000f, 0x0011, 0x0033, 0x0055, 0x00ff, 0x0101, 0x0303, 0x0505, 0x0f0f,
    0x1111, 0x3333, 0x5555, 0xffff,
];

// What was found of one kind: the family of its sets, and the node of each. The family is a mask, and no node of a set is an `Option`, since
// whether any set inside another was found is then one `and`.
#[derive(Clone, Copy)]
pub(crate) struct Found {
    pub(crate) sets: u16,
    pub(crate) nodes: [u8; SETS],
}

// So many nodes at the front, each with its own pair; and what was found of each kind. The nodes are an array with how many, and no
// `ArrayVec`: a table is public and `Copy`, which an `ArrayVec` is not.
#[derive(Clone, Copy)]
pub struct Table {
    pub count: usize,
    pub nodes: [Node; NODES],
    pub(crate) found: [Found; KINDS],
}

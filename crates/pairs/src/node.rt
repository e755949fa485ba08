// A paper as nodes, so that what stands in it twice is written once.
ghost use Rattle.std.specs.Prelude.{◌≡◌};
ghost use Rattle.pairs.specs.declared.node.Node.TheVariants.{Number};

// How many nodes there are at most: one for each of four kinds and sixteen sets of kinds.
pub(crate) const NODES: usize = 64;

// A field of a record: its name, and the node of the paper there.
#[derive(Clone, Copy)]
pub struct Field {
    pub name: u64,
    pub node: u8,
}

// A number, a list of so many earlier nodes, or a record with so many fields; what is behind those says nothing. The parts are arrays with
// how many, and no `ArrayVec`: a node is copied, and an `ArrayVec` can't be.
#[derive(Clone, Copy)]
pub enum Node {
    Number(u64),
    List { count: usize, nodes: [u8; 16] },
    Record { count: usize, fields: [Field; 4] },
}

impl Default for Node {
    ghost is_default = { λ node. node ≡ Number 0 };

    fn default() -> Node {
        Node::Number(0)
    }
}

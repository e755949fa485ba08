// Looking up what has been found, and adding to it.
ghost use Rattle.std.specs.Prelude.{◌≡◌, ℕ, ◌+◌, ◌<◌, true, false, [], ◌∷◌, ◌++◌, take, set as updated, MatchBool};
ghost use Rattle.pairs.specs.Tables.{Marked, HasUnder, found_at, with_set};

use crate::node::{NODES, Node};
use crate::pair::Pair;
use crate::table::{Found, INSIDE, KINDS, SETS, Table};
use taking::with;

impl Table {
    // Nothing found yet.
    pub(crate) fn new() -> Table
        ensures count { result.count ≡ 0 }
        ensures listed { take result.count result.nodes ≡ [] }
        ensures found { (a : ℕ) → (found_at result.found a).sets ≡ 0 }
    {
        Table {
            count: 0,
            nodes: [Node::default(); NODES],
            found: [Found {
                sets: 0,
                nodes: [0; SETS],
            }; KINDS],
        }
    }

    // Whether a set inside this one was found of a kind.
    pub(crate) fn covers(&self, pair: Pair) -> bool
        ensures { MatchBool result (HasUnder self.now pair.kind pair.set) (HasUnder self.now pair.kind pair.set → ⊥) }
    {
        self.found[pair.kind].sets & INSIDE[pair.set as usize] != 0
    }

    // Puts a node behind the others, for a pair that has none.
    pub(crate) fn add(&mut self, pair: Pair, node: Node)
        requires room { self.old.count < 64 }
        ensures count { self.new.count ≡ self.old.count + 1 }
        ensures nodes { self.new.nodes ≡ updated self.old.nodes self.old.count node }
        ensures listed { take self.new.count self.new.nodes ≡ take self.old.count self.old.nodes ++ node ∷ [] }
        ensures found { self.new.found ≡ updated self.old.found pair.kind (with_set (found_at self.old.found pair.kind) pair.set self.old.count) }
    {
        let found = self.found[pair.kind];
        self.found[pair.kind] = found.with_node(pair.set as usize, self.count as u8);
        self.nodes[self.count] = node;
        self.count += 1;
    }
}

impl Found {
    // With one set more, and its node.
    fn with_node(mut self, set: usize, node: u8) -> Found
        requires { set < 16 }
        ensures { result ≡ with_set self set node }
    {
        self.sets = with(self.sets, set);
        self.nodes[set] = node;
        self
    }
}

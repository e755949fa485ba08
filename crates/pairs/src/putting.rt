// Putting what a search gives into the table.
ghost use Rattle.std.specs.Prelude.{◌≡◌, suc, ◌<◌, not, ◌&&◌, ◌==◌};
ghost use Rattle.taking.specs.Masks.{test};
ghost use Rattle.pairs.specs.Nodes.{NamesBelow, node_paper};
ghost use Rattle.pairs.specs.Rounds.{HasPaper};
ghost use Rattle.pairs.specs.Tables.{MarkedAt, HasUnder, papers_of};
ghost use Rattle.pairs.specs.Searches.{one_of, two_of, Running, Tried};

use crate::node::Node;
use crate::pair::Pair;
use crate::round::Round;
use crate::table::Table;
use taking::holds;

// Puts the node of a paper into the table, for a pair that has no set found under its own; says whether that is the answer.
pub(crate) fn put(round: &Round<'_, '_>, table: &mut Table, pair: Pair, node: Node) -> bool
    requires running { Running round.now table.old }
    requires new { HasUnder table.old pair.kind pair.set → ⊥ }
    requires names { NamesBelow table.old.count node }
    requires paper { HasPaper (one_of round.now) (two_of round.now) (suc round.now.depth) pair.kind pair.set (node_paper (papers_of table.old) node) }
    ensures { Tried round.now table.old table.new (MarkedAt pair.kind pair.set) result }
{
    table.add(pair, node);
    round.asks_for(pair)
}

impl Round<'_, '_> {
    // Whether a paper of this kind, taken by just this set of kinds of the second form, is one that is asked for.
    fn asks_for(&self, pair: Pair) -> bool
        ensures { result ≡ (pair.kind == self.now.one.kind && not (test pair.set self.now.other)) }
    {
        pair.kind == self.one.kind && !holds(pair.set, self.other)
    }
}

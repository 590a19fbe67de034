// Does another version read an entry? With a mark for each node and row that an entry names.
#![tactic(auto)]

ghost use Rattle.std.specs.Prelude.{◌<◌};
ghost use Rattle.basics.specs.Decide.{Decides};
ghost use Rattle.table.specs.Rules.{Seeking};
ghost use Rattle.asking.specs.Asking.{OtherMeets, OthersMeet};

use measures::Row;
use trees::Tree;

// Does a living version other than the one at node v, the one at node n, read node g's own row r?
pub fn other_reads(tree: &Tree, marks: &[u8], n: usize, v: usize, g: usize, r: Row) -> bool
    requires { (n < 128) × Seeking tree.now marks.now g r.0 }
    ensures { Decides result (OtherMeets tree.now marks.now v g r.0 n) }
{
    n != v && tree.state[n] == 1 && table::meets(tree, marks, n, g, r)
}

// Does any living version other than the one at node v read it?
pub fn others_read(tree: &Tree, marks: &[u8], v: usize, g: usize, r: Row) -> bool
    requires { Seeking tree.now marks.now g r.0 }
    ensures { Decides result (OthersMeet tree.now marks.now v g r.0) }
{
    for n in 0..128 {
        if other_reads(tree, marks, n, v, g, r) {
            return true;
        }
    }
    false
}

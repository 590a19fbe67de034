// Rule 7 of SPEC 4 at one exception: is it read by some living version?
#![tactic(auto)]

ghost use Rattle.std.specs.Prelude.{◌<◌, length};
ghost use Rattle.basics.specs.Decide.{Decides};
ghost use Rattle.trees.specs.Trees.{entries_of};
ghost use Rattle.table.specs.Rules.{Seeking, Met, Judging, ReadAt};

use guessing::Children;
use measures::Row;
use trees::{Entries, Tree};

// Does some living version read node g's own row r?
fn met(tree: &Tree, marks: &[u8], g: usize, r: Row) -> bool
    requires { Seeking tree.now marks.now g r.0 }
    ensures { Decides result (Met tree.now marks.now r.0 g) }
{
    for n in 0..128 {
        if tree.state[n] == 1 && table::meets(tree, marks, n, g, r) {
            return true;
        }
    }
    false
}

// Does some living version read node g's own row r? The likely one is asked first.
fn seen(tree: &Tree, kin: &Children, marks: &[u8], g: usize, r: Row) -> bool
    requires { Seeking tree.now marks.now g r.0 × (g < 128) }
    ensures { Decides result (Met tree.now marks.now r.0 g) }
{
    let n = guessing::reader(tree, kin, marks, g, r);
    if tree.state[n] == 1 && table::meets(tree, marks, n, g, r) {
        return true;
    }
    met(tree, marks, g, r)
}

// Rule 7 at one entry. A living node reads its own rows; only a ghost's are looked for.
pub fn is_read(tree: &Tree, kin: &Children, table: &Entries, marks: &[u8], i: usize) -> bool
    requires { (i < length table.now.node.now) × Judging tree.now (entries_of table.now) marks.now }
    ensures { Decides result (ReadAt tree.now (entries_of table.now) i) }
{
    let g = usize::from(table.node[i]);
    if g == 0 {
        return true;
    }
    if tree.state[g] == 1 {
        return true;
    }
    let r = Row(usize::from(table.row[i]));
    seen(tree, kin, marks, g, r)
}

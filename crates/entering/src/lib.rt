// Rule 6 of SPEC 4: the entries of the table, in one pass that leaves a mark for each node and row that an entry names.
#![tactic(auto)]

ghost use Rattle.std.specs.Prelude.{◌+◌, ◌<◌, length};
ghost use Rattle.trees.specs.Trees.{entries_of};
ghost use Rattle.trees.specs.Rules.{Excepting};
ghost use Rattle.table.specs.Rules.{Entering, Verdict, EntryFits};

use measures::Row;
use trees::{Entries, Tree};

// Rule 6 at one entry, against those before it. An entry that meets it leaves its mark.
fn enter(tree: &Tree, table: &Entries, i: usize, marks: &mut [u8]) -> bool
    requires { (i < length table.now.node.now) × Entering (entries_of table.now) marks.old i }
    ensures { Verdict (EntryFits tree.now (entries_of table.now) i) (entries_of table.now) (i + 1) marks.new result }
{
    let n = usize::from(table.node[i]);
    if n == 0 {
        return table.row[i] == 0;
    }
    if n >= 128 {
        return false;
    }
    if tree.state[n] == 0 {
        return false;
    }
    let r = Row(usize::from(table.row[i]));
    if !r.is_below(table.rows) {
        return false;
    }
    let k = table::slot(n, r);
    if bits::has(marks, k) {
        return false;
    }
    bits::join(marks, k);
    true
}

// Rule 6.
pub fn entries(tree: &Tree, table: &Entries, marks: &mut [u8]) -> bool
    requires { Entering (entries_of table.now) marks.old 0 }
    ensures { Verdict (Excepting tree.now (entries_of table.now)) (entries_of table.now) (length table.now.node.now) marks.new result }
{
    for i in 0..table.node.len() {
        if !enter(tree, table, i, marks) {
            return false;
        }
    }
    true
}

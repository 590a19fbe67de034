// Rule 7 of SPEC 4: every exception is read by some living version. Most are seen to be read at one look.
#![tactic(auto)]

ghost use Rattle.std.specs.Prelude.{◌<◌, length};
ghost use Rattle.basics.specs.Decide.{Decides};
ghost use Rattle.trees.specs.Trees.{entries_of};
ghost use Rattle.trees.specs.Rules.{AllRead};
ghost use Rattle.nearing.specs.Near.{Near};
ghost use Rattle.table.specs.Rules.{Judging, ReadAt};
ghost use Rattle.clearing.specs.Clear.{Clear, ClearTo};

use guessing::Children;
use listing::NodesInUse;
use measures::Row;
use trees::{Entries, Tree};

// Is entry i clear: is it free, or has what is near its node no mark at its row?
fn clear(tree: &Tree, near: &[u8; 128], table: &Entries, marks: &[u8], i: usize) -> bool
    requires { (i < length table.now.node.now) × Near tree.now near.now
        × Judging tree.now (entries_of table.now) marks.now }
    ensures { Decides result (Clear near.now (entries_of table.now) marks.now i) }
{
    let g = usize::from(table.node[i]);
    if g == 0 {
        return true;
    }
    let r = Row(usize::from(table.row[i]));
    !bits::has(marks, table::slot(usize::from(near[g]), r))
}

// The first entry that is not clear, or the end of the table.
fn clear_to(tree: &Tree, near: &[u8; 128], table: &Entries, marks: &[u8]) -> usize
    requires { Near tree.now near.now × Judging tree.now (entries_of table.now) marks.now }
    ensures { ClearTo near.now (entries_of table.now) marks.now result }
{
    for i in 0..table.node.len() {
        if !clear(tree, near, table, marks, i) {
            return i;
        }
    }
    table.node.len()
}

// Rule 7 at one entry, clear or not.
fn settled(
    tree: &Tree,
    near: &[u8; 128],
    kin: &Children,
    table: &Entries,
    marks: &[u8],
    i: usize,
) -> bool
    requires { (i < length table.now.node.now) × Near tree.now near.now
        × Judging tree.now (entries_of table.now) marks.now }
    ensures { Decides result (ReadAt tree.now (entries_of table.now) i) }
{
    clear(tree, near, table, marks, i) || seeking::is_read(tree, kin, table, marks, i)
}

// Rule 7 from entry k on, those before it being clear.
fn rest_read(
    tree: &Tree,
    near: &[u8; 128],
    kin: &Children,
    table: &Entries,
    marks: &[u8],
    k: usize,
) -> bool
    requires { Near tree.now near.now
        × Judging tree.now (entries_of table.now) marks.now × ClearTo near.now (entries_of table.now) marks.now k }
    ensures { Decides result (AllRead tree.now (entries_of table.now)) }
{
    for i in k..table.node.len() {
        if !settled(tree, near, kin, table, marks, i) {
            return false;
        }
    }
    true
}

// Rule 7, of a table that meets rule 6. The nodes' children are looked up only if some entry is not clear.
pub fn all_read(nodes: &NodesInUse, table: &Entries, marks: &[u8]) -> bool
    requires { Judging nodes.now.tree.now (entries_of table.now) marks.now }
    ensures { Decides result (AllRead nodes.now.tree.now (entries_of table.now)) }
{
    if kinds::at_most(&nodes.tree.state, 1) {
        return true;
    }
    let near = nearing::near(nodes);
    let k = clear_to(nodes.tree, &near, table, marks);
    if k == table.node.len() {
        return true;
    }
    let kin = guessing::kin(nodes, &near);
    rest_read(nodes.tree, &near, &kin, table, marks, k)
}

// The tree's rules, SPEC 4.2 to 4.5, and the table's, SPEC 4.6 and 4.7, one after the other.
#![tactic(auto)]

ghost use Rattle.std.specs.Prelude.{◌≡◌, ◌≤◌, length};
ghost use Rattle.basics.specs.Decide.{Decides};
ghost use Rattle.trees.specs.Trees.{entries_of};
ghost use Rattle.tree.specs.Rules.{TreeSound};
ghost use Rattle.table.specs.Rules.{Fitting, Blank, Verdict, TableSound};

use listing::NodesInUse;
use trees::{Entries, Tree};

// Rules 2 to 5, with a list of the nodes in use.
pub fn tree_sound(nodes: &NodesInUse) -> bool
    ensures { Decides result (TreeSound nodes.now.tree.now) }
{
    kinds::states(nodes.tree)
        && linking::linked(nodes)
        && tagging::tagged(nodes)
        && branching::branching(nodes)
}

// Rules 6 and 7, of a tree that meets rule 3, with a list of its nodes in use. The marks are left as rule 6 made them.
pub fn table_sound(nodes: &NodesInUse, table: &Entries, marks: &mut [u8]) -> bool
    requires { Fitting nodes.now.tree.now (entries_of table.now) × Blank table.now.rows marks.old }
    ensures { Verdict (TableSound nodes.now.tree.now (entries_of table.now)) (entries_of table.now) (length table.now.node.now) marks.new result }
{
    entering::entries(nodes.tree, table, marks) && clearing::all_read(nodes, table, marks)
}

// Rules 2 to 7, of a table whose halves are as long and whose rows are few, with marks that are all 0.
pub fn all_sound(tree: &Tree, table: &Entries, marks: &mut [u8]) -> bool
    requires { (length table.now.row.now ≡ length table.now.node.now) × (table.now.rows ≤ 1024) × Blank table.now.rows marks.old }
    ensures { Verdict (TreeSound tree.now × TableSound tree.now (entries_of table.now)) (entries_of table.now) (length table.now.node.now) marks.new result }
{
    let mut list = [0u8; 128];
    let k = listing::list(&tree.state, &mut list);
    let nodes = NodesInUse {
        tree,
        used: &list[..k],
    };
    tree_sound(&nodes) && table_sound(&nodes, table, marks)
}

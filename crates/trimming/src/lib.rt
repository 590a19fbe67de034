// A version without a child right below a living one: what it alone reads are its own rows, and its node can go at once.
#![tactic(auto)]

ghost use Rattle.std.specs.Prelude.{◌≡◌, length};
ghost use Rattle.basics.specs.Decide.{Decides};
ghost use Rattle.trees.specs.Trees.{Snapshot};
ghost use Rattle.tree.specs.Rules.{Parents};
ghost use Rattle.records.specs.Lent.{SameLent};
ghost use Rattle.trimming.specs.Trimmed.{Loose, own_freed};

use records::Records;
use trees::Tree;

// Is the version at node v such a one?
pub fn loose(tree: &Tree, v: usize) -> bool
    requires { Snapshot tree.now v × Parents tree.now }
    ensures { Decides result (Loose tree.now v) }
{
    let p = usize::from(tree.parent[v]);
    tree.state[p] == 1 && nodes::childless(tree, v)
}

// Every entry of node v becomes free.
pub fn free_own(records: &mut Records<'_>, v: usize)
    requires { length records.old.row.now ≡ length records.old.node.now }
    ensures same { SameLent records.old records.new }
    ensures kept { records.new.tree ≡ records.old.tree }
    ensures freed { (records.new.node.now ≡ own_freed v records.old.node.now records.old.node.now)
        × (records.new.row.now ≡ own_freed v records.old.node.now records.old.row.now) }
{
    for i in 0..records.node.len() {
        if usize::from(records.node[i]) == v {
            records.node[i] = 0;
            records.row[i] = 0;
        }
    }
}

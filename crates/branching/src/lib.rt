// Rule 5 of SPEC 4: node 0 has at most one child, and a ghost two or more.
#![tactic(auto)]

ghost use Rattle.std.specs.Prelude.{◌<◌, ◌≡◌, ◌≢◌, length};
ghost use Rattle.basics.specs.Decide.{Decides};
ghost use Rattle.trees.specs.Trees.{InUse, up};
ghost use Rattle.trees.specs.Rules.{States, Branching};
ghost use Rattle.tree.specs.Rules.{Parents};
ghost use Rattle.branching.specs.Children.{Counted, Forks};

use listing::NodesInUse;
use trees::Tree;

// The parent of a node in use other than node 0.
fn parent_of(tree: &Tree, n: usize) -> usize
    requires { Parents tree.now × (n ≢ 0) × InUse tree.now n }
    ensures { (result < 128) × (up tree.now n ≡ result) }
{
    usize::from(tree.parent[n])
}

// How many children each node has.
fn tally(nodes: &NodesInUse) -> [u8; 128]
    requires { Parents nodes.now.tree.now }
    ensures { Counted nodes.now.tree.now nodes.now.used.now result (length nodes.now.used.now) }
{
    let mut kids = [0u8; 128];
    for n in nodes.used {
        let p = parent_of(nodes.tree, usize::from(*n));
        kids[p] += 1;
    }
    kids
}

// Has a node two children or more, if it is a ghost?
fn forks(tree: &Tree, kids: &[u8; 128], n: usize) -> bool
    requires { n < 128 }
    ensures { Decides result (Forks tree.now kids.now n) }
{
    tree.state[n] != 2 || kids[n] >= 2
}

// Rule 5, of a tree that meets rules 2 and 3, with a list of the nodes in use.
pub fn branching(nodes: &NodesInUse) -> bool
    requires { States nodes.now.tree.now × Parents nodes.now.tree.now }
    ensures { Decides result (Branching nodes.now.tree.now) }
{
    let kids = tally(nodes);
    if kids[0] > 1 {
        return false;
    }
    for n in nodes.used {
        if !forks(nodes.tree, &kids, usize::from(*n)) {
            return false;
        }
    }
    true
}

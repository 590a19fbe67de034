// The first half of rule 3 of SPEC 4: every node in use but node 0 has a parent in use.
#![tactic(auto)]

ghost use Rattle.std.specs.Prelude.{◌≢◌};
ghost use Rattle.basics.specs.Decide.{Decides};
ghost use Rattle.trees.specs.Trees.{InUse, up};
ghost use Rattle.tree.specs.Rules.{Parents};

use listing::NodesInUse;
use trees::Tree;

// Is the parent of a node in use in use?
fn parent_used(tree: &Tree, n: usize) -> bool
    requires { InUse tree.now n }
    ensures { Decides result (InUse tree.now (up tree.now n)) }
{
    let p = usize::from(tree.parent[n]);
    p < 128 && tree.state[p] != 0
}

// Rule 3's first half, with a list of the nodes in use.
pub fn parents(nodes: &NodesInUse) -> bool
    ensures { Decides result (Parents nodes.now.tree.now) }
{
    for n in nodes.used {
        if !parent_used(nodes.tree, usize::from(*n)) {
            return false;
        }
    }
    true
}

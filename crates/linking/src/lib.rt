// Rule 3 of SPEC 4: every node in use but node 0 has a parent in use, and all reach node 0.
#![tactic(auto)]

ghost use Rattle.std.specs.Prelude.{◌≡◌, true, false, get_or};
ghost use Rattle.basics.specs.Decide.{Decides};
ghost use Rattle.trees.specs.Trees.{up, Reaches};
ghost use Rattle.trees.specs.Rules.{Linked};
ghost use Rattle.tree.specs.Rules.{Parents, Climbs};
ghost use Rattle.linking.specs.Known.{AllReach, Known};

use listing::NodesInUse;
use trees::Tree;

// Does going up from a node in use reach node 0? It does if it meets a node that is known to; and a path that does has fewer than 128 steps.
fn reaches(tree: &Tree, known: &[bool], n: usize) -> bool
    requires { Climbs tree.now n × Known tree.now known.now }
    ensures { Decides result (Reaches (up tree.now) n) }
{
    let mut node = n;
    for k in 0..128usize {
        if known[node] {
            return true;
        }
        node = usize::from(tree.parent[node]);
    }
    false
}

// A node that reaches node 0 becomes known, with those above it, up to one that is known already.
fn mark(tree: &Tree, known: &mut [bool], n: usize)
    requires { Climbs tree.now n × Reaches (up tree.now) n
        × Known tree.now known.old }
    ensures { Known tree.now known.new × (get_or known.new n false ≡ true) }
{
    let mut m = n;
    for steps in 0..128usize {
        if known[m] {
            return;
        }
        known[m] = true;
        m = usize::from(tree.parent[m]);
    }
}

// Rule 3's second half: each node is passed by two climbs at most.
fn all_reach(nodes: &NodesInUse) -> bool
    requires { Parents nodes.now.tree.now }
    ensures { Decides result (AllReach nodes.now.tree.now) }
{
    let mut known = [false; 128];
    known[0] = true;
    for n in nodes.used {
        let n = usize::from(*n);
        if !reaches(nodes.tree, &known, n) {
            return false;
        }
        mark(nodes.tree, &mut known, n);
    }
    true
}

// Rule 3, with a list of the nodes in use.
pub fn linked(nodes: &NodesInUse) -> bool
    ensures { Decides result (Linked nodes.now.tree.now) }
{
    hanging::parents(nodes) && all_reach(nodes)
}

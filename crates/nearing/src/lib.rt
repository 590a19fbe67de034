// For each ghost a living child, where it has one: if that child has no own row, it reads the ghost's.
#![tactic(auto)]

ghost use Rattle.std.specs.Prelude.{◌≢◌};
ghost use Rattle.trees.specs.Trees.{InUse};
ghost use Rattle.tree.specs.Rules.{Parents};
ghost use Rattle.nearing.specs.Near.{Near, Hidden};

use listing::NodesInUse;
use trees::Tree;

// Each node that is not alive stands for itself.
fn hidden(state: &[u8; 128]) -> [u8; 128]
    ensures { Hidden state.now result 128 }
{
    let mut near = [0u8; 128];
    for g in 0..128 {
        if state[g] != 1 {
            near[g] = g as u8;
        }
    }
    near
}

// The parent of a living node that is not alive itself has this child near.
fn heir(tree: &Tree, near: &mut [u8], n: usize)
    requires { (n ≢ 0) × InUse tree.now n × Parents tree.now
        × Near tree.now near.old }
    ensures { Near tree.now near.new }
{
    if tree.state[n] != 1 {
        return;
    }
    let p = usize::from(tree.parent[n]);
    if tree.state[p] != 1 {
        near[p] = n as u8;
    }
}

// A living child for each node that is not alive, or itself if it has none.
pub fn near(nodes: &NodesInUse) -> [u8; 128]
    requires { Parents nodes.now.tree.now }
    ensures { Near nodes.now.tree.now result }
{
    let mut near = hidden(&nodes.tree.state);
    for n in nodes.used {
        heir(nodes.tree, &mut near, usize::from(*n));
    }
    near
}

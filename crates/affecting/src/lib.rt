// Which nodes' rows can lose their last reader when a version goes: its own, and those of the ghosts right above it. A living node further up reads all that it read there.
#![tactic(auto)]

ghost use Rattle.trees.specs.Trees.{Snapshot};
ghost use Rattle.trees.specs.Rules.{States, Linked};
ghost use Rattle.affecting.specs.Affected.{Affected};

use trees::Tree;

// True for each of these nodes, false for the others.
pub fn affected(tree: &Tree, v: usize) -> [bool; 128]
    requires { States tree.now × Linked tree.now × Snapshot tree.now v }
    ensures { Affected tree.now v result }
{
    let mut xs = [false; 128];
    let mut m = v;
    for k in 0..128usize {
        xs[m] = true;
        m = usize::from(tree.parent[m]);
        if tree.state[m] == 1 {
            return xs;
        }
    }
    xs
}

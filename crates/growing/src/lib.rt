// The tree of a new snapshot: a new living node, between node 0 and its former child for the origin, under its source for any other.
#![tactic(auto)]

ghost use Rattle.std.specs.Prelude.{◌≡◌, ◌<◌};
ghost use Rattle.trees.specs.Trees.{nodes_used};
ghost use Rattle.growing.specs.Growing.{tree_at};

use trees::Tree;

// The tree with a new node for a snapshot of the version at node v.
pub fn with_snapshot(tree: Tree, v: usize, tag: u16) -> Tree
    requires { (v < 128) × (nodes_used tree < 128) }
    ensures { result ≡ tree_at tree v tag }
{
    let m = nodes::empty_node(&tree);
    let next = nodes::grown(tree, m, tag, v);
    if v != 0 {
        return next;
    }
    let Some(c) = nodes::child(&tree, 0) else {
        return next;
    };
    nodes::hung(next, c, m)
}

// The tree without a version: its node becomes a ghost, and a ghost that has too few children goes.
#![tactic(auto)]

ghost use Rattle.std.specs.Prelude.{◌≡◌, ◌<◌};
ghost use Rattle.removal.specs.Removal.{ghosted, emptied, spliced, relabelled};
ghost use Rattle.pruning.specs.Pruning.{pruned_tree, pruned_node, settled_tree, settled_node};

use nodes::Stand;
use trees::Tree;

// Node v becomes a ghost.
pub fn ghosted(mut tree: Tree, v: usize) -> Tree
    requires { v < 128 }
    ensures { result ≡ ghosted tree v }
{
    tree.state[v] = 2;
    tree.tag[v] = 0;
    tree
}

// Node x becomes empty.
pub fn emptied(mut tree: Tree, x: usize) -> Tree
    requires { x < 128 }
    ensures { result ≡ emptied tree x }
{
    tree.state[x] = 0;
    tree.tag[x] = 0;
    tree.parent[x] = 0;
    tree
}

// Node x is taken out: its child w goes under its parent.
fn spliced(mut tree: Tree, x: usize, w: usize) -> Tree
    requires { (x < 128) × (w < 128) }
    ensures { result ≡ spliced tree x w }
{
    let p = tree.parent[x];
    tree.parent[w] = p;
    emptied(tree, x)
}

// Every entry of node x becomes node w's.
fn relabel(node: &mut [u8], x: usize, w: usize)
    requires { w < 128 }
    ensures { node.new ≡ relabelled x w node.old }
{
    for n in node.iter_mut() {
        if usize::from(*n) == x {
            *n = w as u8;
        }
    }
}

// A ghost without a child is taken away: the tree then, and the node that may have one child too few.
pub fn pruned(tree: Tree, v: usize) -> Stand
    requires { v < 128 }
    ensures { (result.tree ≡ pruned_tree tree v) × (result.node ≡ pruned_node tree v) }
{
    if let Some(_) = nodes::child(&tree, v) {
        return Stand { tree, node: v };
    }
    let above = usize::from(tree.parent[v]);
    Stand {
        tree: emptied(tree, v),
        node: above,
    }
}

// A ghost with one child is taken out.
pub fn settled(tree: Tree, x: usize, node: &mut [u8]) -> Tree
    requires { x < 128 }
    ensures { (result ≡ settled_tree tree x) × (node.new ≡ settled_node tree x node.old) }
{
    if tree.state[x] != 2 {
        return tree;
    }
    if nodes::children(&tree, x) != 1 {
        return tree;
    }
    let Some(w) = nodes::child(&tree, x) else {
        return tree;
    };
    relabel(node, x, w);
    spliced(tree, x, w)
}

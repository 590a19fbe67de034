// Nodes for a change of the tree: an empty one, a child, and the tree with one node changed.
#![tactic(auto)]

ghost use Rattle.std.specs.Prelude.{◌≡◌, ◌≢◌, ℕ, ◌<◌};
ghost use Rattle.std.proofs.Math.Option.{some};
ghost use Rattle.basics.specs.Decide.{Decides};
ghost use Rattle.trees.specs.Trees.{Child, nodes_used, children};
ghost use Rattle.tree.specs.Rules.{found_of};
ghost use Rattle.edits.specs.Edits.{grown, hung, split};
ghost use Rattle.nodes.specs.Nodes.{empty_node, first_child};

use trees::Tree;

// A tree, and a node of it.
#[derive(Clone, Copy)]
pub struct Stand {
    pub tree: Tree,
    pub node: usize,
}

// The first empty node, of a tree that has one.
pub fn empty_node(tree: &Tree) -> usize
    requires { nodes_used tree.now < 128 }
    ensures { empty_node tree.now ≡ some result }
{
    for n in 0..128 {
        if tree.state[n] == 0 {
            return n;
        }
    }
    128
}

// Is a node in use, and its parent a certain one? The numbers are compared in a function of their own, so that the loop that asks has no branch left.
fn hangs(s: u8, p: u8, above: u8) -> bool
    ensures { Decides result ((s ≢ 0) × (p ≡ above)) }
{
    s != 0 && p == above
}

// Has a node no child? Children are counted in a loop that is never left early: so the compiler takes many nodes at once.
pub fn childless(tree: &Tree, v: usize) -> bool
    requires { v < 128 }
    ensures { Decides result ((c : ℕ) → Child tree.now v c → ⊥) }
{
    let wanted = v as u8;
    let mut children: u8 = 0;
    for n in 1..128 {
        if hangs(tree.state[n], tree.parent[n], wanted) {
            children += 1;
        }
    }
    children == 0
}

// The first child of a node, node by node.
fn first_child(tree: &Tree, p: usize) -> Option<usize>
    ensures { result ≡ found_of (first_child tree.now p) }
{
    for n in 1..128 {
        if tree.state[n] != 0 && usize::from(tree.parent[n]) == p {
            return Some(n);
        }
    }
    None
}

// The first child of a node. That there is none is soon told.
pub fn child(tree: &Tree, p: usize) -> Option<usize>
    ensures { result ≡ found_of (first_child tree.now p) }
{
    if p < 128 && childless(tree, p) {
        return None;
    }
    first_child(tree, p)
}

// A new living node m, with a tag, under node p.
pub fn grown(mut tree: Tree, m: usize, tag: u16, p: usize) -> Tree
    requires { (m < 128) × (p < 128) }
    ensures { result ≡ grown tree m tag p }
{
    tree.state[m] = 1;
    tree.tag[m] = tag;
    tree.parent[m] = p as u8;
    tree
}

// Node c is hung under node p.
pub fn hung(mut tree: Tree, c: usize, p: usize) -> Tree
    requires { (c < 128) × (p < 128) }
    ensures { result ≡ hung tree c p }
{
    tree.parent[c] = p as u8;
    tree
}

// Node v becomes a ghost, and its tag passes to a new child m.
pub fn split(mut tree: Tree, v: usize, m: usize) -> Tree
    requires { (v < 128) × (m < 128) }
    ensures { result ≡ split tree v m }
{
    let tag = tree.tag[v];
    tree.state[v] = 2;
    tree.tag[v] = 0;
    tree.state[m] = 1;
    tree.tag[m] = tag;
    tree.parent[m] = v as u8;
    tree
}

// How many children a node has.
pub fn children(tree: &Tree, p: usize) -> usize
    ensures { result ≡ children tree.now p }
{
    let mut sum: usize = 0;
    for n in 1..128 {
        if tree.state[n] != 0 && usize::from(tree.parent[n]) == p {
            sum += 1;
        }
    }
    sum
}

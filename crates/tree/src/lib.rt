// The living version of a tag, and how many snapshots are alive.
#![tactic(auto)]

ghost use Rattle.std.specs.Prelude.{◌≡◌};
ghost use Rattle.trees.specs.Trees.{snapshots, version};
ghost use Rattle.tree.specs.Rules.{found_of};

use trees::Tree;

// The living node with a tag, one node after the other.
fn search(tree: &Tree, wanted: u16) -> Option<usize>
    ensures { result ≡ found_of (version tree.now wanted) }
{
    for n in 0..128 {
        if tree.state[n] == 1 && tree.tag[n] == wanted {
            return Some(n);
        }
    }
    None
}

// The living node with a tag. A tag that no node has is not searched for.
pub fn version(tree: &Tree, wanted: u16) -> Option<usize>
    ensures { result ≡ found_of (version tree.now wanted) }
{
    if !scanning::among(&tree.tag, wanted) {
        return None;
    }
    search(tree, wanted)
}

// How many snapshots are alive, counted in a byte: so the compiler takes many nodes at once.
pub fn snapshots(tree: &Tree) -> usize
    ensures { result ≡ snapshots tree.now }
{
    let mut alive: u8 = 0;
    for n in 1..128 {
        if tree.state[n] == 1 {
            alive += 1;
        }
    }
    alive as usize
}

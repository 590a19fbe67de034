// The tree lent by `&mut`: each call changes it where it stands.
#![tactic(auto)]

ghost use Rattle.std.specs.Prelude.{◌≡◌, ◌<◌};
ghost use Rattle.edits.specs.Edits.{hung};
ghost use Rattle.removal.specs.Removal.{emptied};
ghost use Rattle.lending.specs.Lending.{filled};

use trees::Tree;

// A node, and what it is to hold.
#[derive(Clone, Copy)]
pub struct Node {
    pub number: usize,
    pub state: u8,
    pub tag: u16,
    pub parent: u8,
}

// A node's state, tag and parent are set.
pub fn fill(tree: &mut Tree, node: Node)
    requires { node.number < 128 }
    ensures { tree.new ≡ filled tree.old node }
{
    tree.state[node.number] = node.state;
    tree.tag[node.number] = node.tag;
    tree.parent[node.number] = node.parent;
}

// A node gets another parent.
pub fn hang(tree: &mut Tree, child: usize, parent: usize)
    requires { (child < 128) × (parent < 128) }
    ensures { tree.new ≡ hung tree.old child parent }
{
    *tree = nodes::hung(*tree, child, parent);
}

// A node becomes empty.
pub fn empty(tree: &mut Tree, n: usize)
    requires { n < 128 }
    ensures { tree.new ≡ emptied tree.old n }
{
    fill(
        tree,
        Node {
            number: n,
            state: 0,
            tag: 0,
            parent: 0,
        },
    );
}

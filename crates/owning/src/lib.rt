// A version's own row: the node that is to have it, and its entry in the table.
#![tactic(auto)]

ghost use Rattle.std.specs.Prelude.{◌≡◌, ℕ, ◌<◌, length, set};
ghost use Rattle.records.specs.Lent.{SameLent};
ghost use Rattle.trees.specs.Trees.{nodes_used, Child};
ghost use Rattle.owning.specs.Owning.{parted_tree, parted_node};

use measures::Row;
use nodes::Stand;
use records::Records;
use trees::Tree;

// An entry of the table gets a node and a row.
pub fn enter(records: &mut Records<'_>, i: usize, n: usize, r: Row)
    requires { (i < length records.old.node.now) × (i < length records.old.row.now) × (n < 128) × (r.0 < 1024) }
    ensures same { SameLent records.old records.new }
    ensures kept { records.new.tree ≡ records.old.tree }
    ensures entered { (records.new.node.now ≡ set records.old.node.now i n) × (records.new.row.now ≡ set records.old.row.now i r.0) }
{
    records.node[i] = n as u8;
    records.row[i] = r.number();
}

// The tree, and the node of it that is to have an own row: a node without a child as it stands; another becomes a ghost, and a new child takes its tag.
pub fn parted(tree: Tree, v: usize) -> Stand
    requires { (v < 128) × ((c : ℕ) → Child tree v c → nodes_used tree < 128) }
    ensures { (result.tree ≡ parted_tree tree v) × (result.node ≡ parted_node tree v) }
{
    let Some(_) = nodes::child(&tree, v) else {
        return Stand { tree, node: v };
    };
    let m = nodes::empty_node(&tree);
    Stand {
        tree: nodes::split(tree, v, m),
        node: m,
    }
}

// Opening a store: all that was lent becomes zero, and the tree is node 0 alone.
#![tactic(auto)]

ghost use Rattle.std.specs.Prelude.{◌≡◌, length, replicate};
ghost use Rattle.answers.specs.Results.{answer_of, left_of};
ghost use Rattle.opening.specs.Opening.{first_tree, no_tree, Opening};

use answers::Refusal;
use measures::Size;
use trees::Tree;

// Every byte becomes 0.
pub fn clear(bytes: &mut [u8])
    ensures { bytes.new ≡ replicate (length bytes.old) 0 }
{
    bytes.fill(0);
}

fn first_tree() -> Tree
    ensures { result ≡ first_tree }
{
    let mut state = [0u8; 128];
    state[0] = 1;
    Tree {
        state,
        tag: [0u16; 128],
        parent: [0u8; 128],
    }
}

// The tree of the store: node 0 alone. Refusals: 1, 2. A refusal leaves everything as it is.
pub fn open(
    size: Size,
    places: &mut [u8],
    node: &mut [u8],
    row: &mut [u16],
) -> Result<Tree, Refusal>
    ensures { Opening size places.old node.old row.old (answer_of result) (left_of no_tree result) places.new node.new row.new }
{
    if !size.within() {
        return Err(Refusal::BadSize);
    }
    let entries = size.places - size.rows;
    if places.len() != size.places * size.width || node.len() != entries || row.len() != entries {
        return Err(Refusal::BadLength);
    }
    clear(places);
    clear(node);
    row.fill(0);
    Ok(first_tree())
}

// The records, read from their bytes.
#![tactic(auto)]

ghost use Rattle.std.specs.Prelude.{◌≡◌, length};
ghost use Rattle.records.specs.Records.{records_of};
ghost use Rattle.layout.specs.Layout.{size_at, tree_at, nodes_at, loaded, entries, Fits};

use layout::{PARENTS_AT, STATES_AT, TABLE_AT, TAGS_AT};
use trees::Tree;

// The tree.
fn load_tree(records: &[u8]) -> Tree
    requires { Fits records.now }
    ensures { result ≡ tree_at records.now }
{
    let mut t = Tree {
        state: [0u8; 128],
        tag: [0u16; 128],
        parent: [0u8; 128],
    };
    t.state.copy_from_slice(&records[STATES_AT..PARENTS_AT]);
    t.parent.copy_from_slice(&records[PARENTS_AT..TAGS_AT]);
    laying::load_few(&records[TAGS_AT..TABLE_AT], &mut t.tag);
    t
}

// The tree and the rows, whose number is the right one. The nodes are bytes, and stay where they lie.
pub fn load(records: &[u8], row: &mut [u16]) -> Tree
    requires { Fits records.now × (length row.old ≡ entries (size_at records.now)) }
    ensures { records_of (size_at records.now) result (nodes_at records.now) row.new ≡ loaded records.now }
{
    let rows = TABLE_AT + row.len();
    laying::load_numbers(&records[rows..], row);
    load_tree(records)
}

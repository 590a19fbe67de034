// The records, laid into their bytes.
#![tactic(auto)]

ghost use Rattle.std.specs.Prelude.{◌≡◌, [], ◌∷◌, length};
ghost use Rattle.measures.specs.Measures.{Within};
ghost use Rattle.records.specs.Records.{records_of};
ghost use Rattle.laying.specs.Writing.{HasRoom, Adds};
ghost use Rattle.layout.specs.Layout.{tree_bytes, stored, entries, size_at, nodes_at, rows_at, Fits};

use laying::Writer;
use layout::{STATES_AT, TABLE_AT};
use measures::Size;
use trees::Tree;

// The measures.
pub fn head(size: Size) -> [u16; 3]
    requires { Within size }
    ensures { result ≡ (size.rows ∷ size.width ∷ size.places ∷ []) }
{
    [size.rows as u16, size.width as u16, size.places as u16]
}

// The tree.
fn lay_tree(out: &mut Writer<'_>, tree: Tree)
    requires { HasRoom out.old 512 }
    ensures { Adds out.old (tree_bytes tree) out.new }
{
    out.lay(&tree.state);
    out.lay(&tree.parent);
    out.lay_numbers(&tree.tag);
}

// The tree anew; all else is as it was.
pub fn renew_tree(records: &mut [u8], tree: Tree)
    requires { Fits records.old }
    ensures { records.new ≡ stored (records_of (size_at records.old) tree (nodes_at records.old) (rows_at records.old)) }
{
    let mut out = Writer {
        bytes: records,
        end: STATES_AT,
    };
    lay_tree(&mut out, tree);
}

// The tree and the rows anew; the measures and the nodes are as they lie there.
pub fn renew(records: &mut [u8], tree: Tree, row: &[u16])
    requires { Fits records.old × (length row.now ≡ entries (size_at records.old)) }
    ensures { records.new ≡ stored (records_of (size_at records.old) tree (nodes_at records.old) row.now) }
{
    let mut out = Writer {
        bytes: records,
        end: STATES_AT,
    };
    lay_tree(&mut out, tree);
    out.end = TABLE_AT + row.len();
    out.lay_numbers(row);
}

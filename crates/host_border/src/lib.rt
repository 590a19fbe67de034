// A border, the records being bytes. The rows are loaded into a buffer of their own, as small as serves.
#![tactic(auto)]

ghost use Rattle.std.specs.Prelude.{◌≡◌, ◌≤◌};
ghost use Rattle.owning.specs.Owning.{held};
ghost use Rattle.borders.specs.Bordering.{BorderEnds};
ghost use Rattle.borders.specs.Refused.{number_of};
ghost use Rattle.records.specs.Records.{records_of};
ghost use Rattle.layout.specs.Layout.{entries, size_at, nodes_at, stored, Fits};
ghost use Rattle.host.specs.Host.{Ready};
ghost use Rattle.host_border.specs.Borders.{bytes_after, HostBorders};

use answers::Refusal;
use layout::TABLE_AT;
use measures::Size;
use records::Records;
use sequencing::Bordered;
use trees::Tree;

// Rows of the version with a tag are written, in their order, until one is refused. Refusals: 20, 25, 2, 21, 3, 24.
pub fn border(
    records: &mut [u8],
    places: &mut [u8],
    tag: u16,
    rows: &[u16],
    bytes: &[u8],
) -> Bordered
    ensures { HostBorders records.old places.old tag rows.now bytes.now (number_of result.refusal) result.done (records.new, places.new) }
{
    if !layout::fits(records) {
        return sequencing::refused(Refusal::Unsound);
    }
    // The smallest buffer that serves. Tried: a closure that is lent it. What such a closure is lent by `&mut` is not known after it was called.
    let n = layout::entries(records);
    if n <= 64 {
        return border_in::<64>(records, n, places, tag, rows, bytes);
    }
    if n <= 512 {
        return border_in::<512>(records, n, places, tag, rows, bytes);
    }
    border_in::<4096>(records, n, places, tag, rows, bytes)
}

// The same, with a buffer of N for the rows. The nodes are lent where they lie.
fn border_in<const N: usize>(
    records: &mut [u8],
    n: usize,
    places: &mut [u8],
    tag: u16,
    rows: &[u16],
    bytes: &[u8],
) -> Bordered
    requires fits { Fits records.old × (n ≡ entries (size_at records.old)) }
    requires room { (n ≤ N) × (N ≤ 4096) }
    ensures { HostBorders records.old places.old tag rows.now bytes.now (number_of result.refusal) result.done (records.new, places.new) }
{
    let mut buffer = [0u16; N];
    let row = &mut buffer[..n];
    let size = layout::size(records);
    let mut tree = loading::load(records, row);
    let to = TABLE_AT + n;
    let node = &mut records[TABLE_AT..to];
    let ended = border_parts(size, &mut tree, node, row, places, tag, rows, bytes);
    keep_done(records, ended.done, tree, row);
    ended
}

// The same on the parts of the records. They are lent one by one here: of a range of bytes that a struct lends it is not known what it holds in the end,
// of one that a function is lent it is.
fn border_parts(
    size: Size,
    tree: &mut Tree,
    node: &mut [u8],
    row: &mut [u16],
    places: &mut [u8],
    tag: u16,
    rows: &[u16],
    bytes: &[u8],
) -> Bordered
    ensures { BorderEnds (records_of size tree.old node.old row.old) places.old tag rows.now bytes.now
        (number_of result.refusal) result.done
        (held tree.new node.new row.new places.new) }
{
    let mut store = Records {
        size,
        tree: *tree,
        node,
        row,
    };
    let ended = bordering::border(&mut store, places, tag, rows, bytes);
    *tree = store.tree;
    ended
}

// What a border left is stored, unless no row was done: the tree and the rows. The nodes lie where it had them.
fn keep_done(records: &mut [u8], done: usize, tree: Tree, row: &[u16])
    requires { Ready records.old row.now }
    ensures { records.new ≡ bytes_after records.old done (stored (records_of (size_at records.old) tree (nodes_at records.old) row.now)) }
{
    if done == 0 {
        return;
    }
    recording::renew(records, tree, row);
}

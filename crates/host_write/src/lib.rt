// A write, the records being bytes. The rows are loaded into a buffer of their own, as small as serves.
#![tactic(auto)]

ghost use Rattle.std.specs.Prelude.{◌≡◌, ◌≤◌};
ghost use Rattle.answers.specs.Results.{answer_of};
ghost use Rattle.records.specs.Records.{records_of};
ghost use Rattle.owning.specs.Owning.{held};
ghost use Rattle.writes.specs.Writing.{WriteEnds};
ghost use Rattle.layout.specs.Layout.{entries, size_at, Fits};
ghost use Rattle.host_write.specs.Writes.{HostWrites};

use answers::Refusal;
use layout::TABLE_AT;
use measures::{Row, Size};
use records::Records;
use trees::Tree;

// A row of the version with a tag is written. Refusals: 20, 2, 3, 21, 24.
pub fn write(
    records: &mut [u8],
    places: &mut [u8],
    tag: u16,
    r: Row,
    bytes: &[u8],
) -> Result<(), Refusal>
    ensures { HostWrites records.old places.old tag r.0 bytes.now (answer_of result) (records.new, places.new) }
{
    if !layout::fits(records) {
        return Err(Refusal::Unsound);
    }
    // The smallest buffer that serves. Tried: a closure that is lent it. What such a closure is lent by `&mut` is not known after it was called.
    let n = layout::entries(records);
    if n <= 64 {
        return write_in::<64>(records, n, places, tag, r, bytes);
    }
    if n <= 512 {
        return write_in::<512>(records, n, places, tag, r, bytes);
    }
    write_in::<4096>(records, n, places, tag, r, bytes)
}

// The same, with a buffer of N for the rows. The nodes are lent where they lie.
fn write_in<const N: usize>(
    records: &mut [u8],
    n: usize,
    places: &mut [u8],
    tag: u16,
    r: Row,
    bytes: &[u8],
) -> Result<(), Refusal>
    requires fits { Fits records.old × (n ≡ entries (size_at records.old)) }
    requires room { (n ≤ N) × (N ≤ 4096) }
    ensures { HostWrites records.old places.old tag r.0 bytes.now (answer_of result) (records.new, places.new) }
{
    let mut buffer = [0u16; N];
    let row = &mut buffer[..n];
    let size = layout::size(records);
    let mut tree = loading::load(records, row);
    let to = TABLE_AT + n;
    let node = &mut records[TABLE_AT..to];
    write_parts(size, &mut tree, node, row, places, tag, r, bytes)?;
    recording::renew(records, tree, row);
    Ok(())
}

// The same on the parts of the records. They are lent one by one here: of a range of bytes that a struct lends it is not known what it holds in the end,
// of one that a function is lent it is.
fn write_parts(
    size: Size,
    tree: &mut Tree,
    node: &mut [u8],
    row: &mut [u16],
    places: &mut [u8],
    tag: u16,
    r: Row,
    bytes: &[u8],
) -> Result<(), Refusal>
    ensures { WriteEnds (records_of size tree.old node.old row.old) places.old tag r.0 bytes.now (answer_of result)
        (held tree.new node.new row.new places.new) }
{
    let mut store = Records {
        size,
        tree: *tree,
        node,
        row,
    };
    let written = writing::write(&mut store, places, tag, r, bytes);
    *tree = store.tree;
    written
}

// A delete, the records being bytes. The rows are loaded into a buffer of their own, as small as serves.
#![tactic(auto)]

ghost use Rattle.std.specs.Prelude.{◌≡◌, ◌≤◌};
ghost use Rattle.answers.specs.Results.{answer_of};
ghost use Rattle.records.specs.Records.{records_of};
ghost use Rattle.deletes.specs.Deleting.{left, DeleteEnds};
ghost use Rattle.layout.specs.Layout.{entries, size_at, Fits};
ghost use Rattle.host_delete.specs.Deletes.{HostDeletes};

use answers::Refusal;
use layout::TABLE_AT;
use measures::Size;
use records::Records;
use trees::Tree;

// The version with a tag goes. Refusals: 20, 5, 21.
pub fn delete(records: &mut [u8], tag: u16) -> Result<(), Refusal>
    ensures { HostDeletes records.old tag (answer_of result) records.new }
{
    if !layout::fits(records) {
        return Err(Refusal::Unsound);
    }
    // The smallest buffer that serves. Tried: a closure that is lent it. What such a closure is lent by `&mut` is not known after it was called.
    let n = layout::entries(records);
    if n <= 64 {
        return delete_in::<64>(records, n, tag);
    }
    if n <= 512 {
        return delete_in::<512>(records, n, tag);
    }
    delete_in::<4096>(records, n, tag)
}

// The same, with a buffer of N for the rows. The nodes are lent where they lie.
fn delete_in<const N: usize>(records: &mut [u8], n: usize, tag: u16) -> Result<(), Refusal>
    requires fits { Fits records.old × (n ≡ entries (size_at records.old)) }
    requires room { (n ≤ N) × (N ≤ 4096) }
    ensures { HostDeletes records.old tag (answer_of result) records.new }
{
    let mut buffer = [0u16; N];
    let row = &mut buffer[..n];
    let size = layout::size(records);
    let mut tree = loading::load(records, row);
    let to = TABLE_AT + n;
    let node = &mut records[TABLE_AT..to];
    delete_parts(size, &mut tree, node, row, tag)?;
    recording::renew(records, tree, row);
    Ok(())
}

// The same on the parts of the records. They are lent one by one here: of a range of bytes that a struct lends it is not known what it holds in the end,
// of one that a function is lent it is.
fn delete_parts(
    size: Size,
    tree: &mut Tree,
    node: &mut [u8],
    row: &mut [u16],
    tag: u16,
) -> Result<(), Refusal>
    ensures { DeleteEnds (records_of size tree.old node.old row.old) tag (answer_of result) (left tree.new node.new row.new) }
{
    let mut store = Records {
        size,
        tree: *tree,
        node,
        row,
    };
    let deleted = deleting::delete(&mut store, tag);
    *tree = store.tree;
    deleted
}

// A snapshot, the records being bytes. The rows are loaded into a buffer of their own, as small as serves.
#![tactic(auto)]

ghost use Rattle.std.specs.Prelude.{◌≡◌, ◌≤◌};
ghost use Rattle.answers.specs.Results.{answer_of};
ghost use Rattle.layout.specs.Layout.{entries, size_at, Fits};
ghost use Rattle.host_snapshot.specs.Snapshots.{HostSnapshots};

use answers::Refusal;
use layout::TABLE_AT;
use records::View;

// A snapshot of the version with a tag, under a new tag. Refusals: 20, 4, 21, 22, 23.
pub fn snapshot(records: &mut [u8], source: u16, tag: u16) -> Result<(), Refusal>
    ensures { HostSnapshots records.old source tag (answer_of result) records.new }
{
    if !layout::fits(records) {
        return Err(Refusal::Unsound);
    }
    // The smallest buffer that serves. Tried: a closure that is lent it. What such a closure is lent by `&mut` is not known after it was called.
    let n = layout::entries(records);
    if n <= 64 {
        return snapshot_in::<64>(records, n, source, tag);
    }
    if n <= 512 {
        return snapshot_in::<512>(records, n, source, tag);
    }
    snapshot_in::<4096>(records, n, source, tag)
}

// The same, with a buffer of N for the rows. The nodes are lent where they lie.
fn snapshot_in<const N: usize>(
    records: &mut [u8],
    n: usize,
    source: u16,
    tag: u16,
) -> Result<(), Refusal>
    requires fits { Fits records.old × (n ≡ entries (size_at records.old)) }
    requires room { (n ≤ N) × (N ≤ 4096) }
    ensures { HostSnapshots records.old source tag (answer_of result) records.new }
{
    let mut buffer = [0u16; N];
    let row = &mut buffer[..n];
    let size = layout::size(records);
    let tree = loading::load(records, row);
    let to = TABLE_AT + n;
    let view = View {
        size,
        tree: &tree,
        node: &records[TABLE_AT..to],
        row,
    };
    let next = snapshots::snapshot(&view, source, tag)?;
    recording::renew_tree(records, next);
    Ok(())
}

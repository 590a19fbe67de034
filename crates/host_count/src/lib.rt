// The counts, the records being bytes. The rows are loaded into a buffer of their own, as small as serves.
#![tactic(auto)]

ghost use Rattle.std.specs.Prelude.{◌≡◌, ◌≤◌};
ghost use Rattle.answers.specs.Results.{answer_of};
ghost use Rattle.counting.specs.Counted.{used_of, snapshots_of};
ghost use Rattle.layout.specs.Layout.{entries, size_at, Fits};
ghost use Rattle.host_count.specs.Counts.{HostCounts};

use answers::Refusal;
use counting::Counts;
use layout::TABLE_AT;
use records::View;

// Places in use and snapshots alive. Refusal: 20.
pub fn count(records: &[u8]) -> Result<Counts, Refusal>
    ensures { HostCounts records.now (answer_of result) (used_of result) (snapshots_of result) }
{
    if !layout::fits(records) {
        return Err(Refusal::Unsound);
    }
    // The smallest buffer that serves, chosen as in the calls that write: a closure that is lent it does not prove there, as `host_write` says.
    let n = layout::entries(records);
    if n <= 64 {
        return count_in::<64>(records, n);
    }
    if n <= 512 {
        return count_in::<512>(records, n);
    }
    count_in::<4096>(records, n)
}

// The same, with a buffer of N for the rows. The nodes are lent where they lie.
fn count_in<const N: usize>(records: &[u8], n: usize) -> Result<Counts, Refusal>
    requires fits { Fits records.now × (n ≡ entries (size_at records.now)) }
    requires room { (n ≤ N) × (N ≤ 4096) }
    ensures { HostCounts records.now (answer_of result) (used_of result) (snapshots_of result) }
{
    let mut buffer = [0u16; N];
    let row = &mut buffer[..n];
    let size = layout::size(records);
    let tree = loading::load(records, row);
    let to = TABLE_AT + n;
    let view = View {
        size,
        tree: &tree,
        node: &records[TABLE_AT..to],
        row,
    };
    counting::count(&view)
}

// A read, the records being bytes. The rows are loaded into a buffer of their own, as small as serves.
#![tactic(auto)]

ghost use Rattle.std.specs.Prelude.{◌≡◌, ◌≤◌, length};
ghost use Rattle.answers.specs.Results.{answer_of};
ghost use Rattle.layout.specs.Layout.{entries, size_at, Fits};
ghost use Rattle.queries.specs.Lent.{bytes_of, sharers_of};
ghost use Rattle.host_read.specs.Reads.{HostReads, Copied};
ghost use Rattle.host_read.specs.Told.{told_of};

use answers::Refusal;
use layout::TABLE_AT;
use measures::{Row, Size};
use queries::Lent;
use records::View;

// A row of the version with a tag is copied to `out`, and handed out is how many living versions share it. Refusals: 20, 2, 3, 21.
pub fn read(
    records: &[u8],
    places: &[u8],
    tag: u16,
    r: Row,
    out: &mut [u8],
) -> Result<usize, Refusal>
    ensures { HostReads records.now places.now tag r.0 out.old (answer_of result) (out.new, told_of result) }
{
    if !layout::fits(records) {
        return Err(Refusal::Unsound);
    }
    // The smallest buffer that serves. Tried: a closure that is lent it. What such a closure is lent by `&mut` is not known after it was called.
    let n = layout::entries(records);
    if n <= 64 {
        return read_in::<64>(records, n, places, tag, r, out);
    }
    if n <= 512 {
        return read_in::<512>(records, n, places, tag, r, out);
    }
    read_in::<4096>(records, n, places, tag, r, out)
}

// The same, with a buffer of N for the rows. The nodes are lent where they lie.
fn read_in<const N: usize>(
    records: &[u8],
    n: usize,
    places: &[u8],
    tag: u16,
    r: Row,
    out: &mut [u8],
) -> Result<usize, Refusal>
    requires fits { Fits records.now × (n ≡ entries (size_at records.now)) }
    requires room { (n ≤ N) × (N ≤ 4096) }
    ensures { HostReads records.now places.now tag r.0 out.old (answer_of result) (out.new, told_of result) }
{
    let mut buffer = [0u16; N];
    let row = &mut buffer[..n];
    let size = layout::size(records);
    let tree = loading::load(records, row);
    let to = TABLE_AT + n;
    let view = View {
        size,
        tree: &tree,
        node: &records[TABLE_AT..to],
        row,
    };
    let lent = queries::read(&view, places, tag, r);
    copy_row(size, lent, out)
}

// The row and its number, where it was read and fits. A buffer of another length is refused after unsound records and before a row.
fn copy_row(size: Size, read: Result<Lent, Refusal>, out: &mut [u8]) -> Result<usize, Refusal>
    requires { answer_of read ≡ 0 → length (bytes_of read) ≡ size.width }
    ensures { Copied size.width (answer_of read.entry) (bytes_of read.entry) (sharers_of read.entry) out.old (answer_of result) out.new (told_of result) }
{
    // By the number: a match on this one refusal tells the check nothing of the others.
    if answers::answer_of(&read) == Refusal::Unsound.number() {
        return Err(Refusal::Unsound);
    }
    if out.len() != size.width {
        return Err(Refusal::BadLength);
    }
    match read {
        Ok(lent) => {
            out.copy_from_slice(lent.bytes);
            Ok(lent.sharers)
        }
        Err(refusal) => Err(refusal),
    }
}

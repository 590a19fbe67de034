// The C interface: the calls on numbers and slices, the records being bytes, and rows turned to cable order and back. Each is made by a crate of its own.
#![tactic(auto)]

ghost use Rattle.host_count.specs.Counts.{HostCounts};
ghost use Rattle.host_snapshot.specs.Snapshots.{HostSnapshots};
ghost use Rattle.host_delete.specs.Deletes.{HostDeletes};
ghost use Rattle.host_write.specs.Writes.{HostWrites};
ghost use Rattle.host_border.specs.Borders.{HostBorders};
ghost use Rattle.host_read.specs.Reads.{HostReads};
ghost use Rattle.host_open.specs.Opens.{HostOpens, size_of};
ghost use Rattle.cables.specs.Cables.{to_cable, from_cable, Turns};

use measures::{Row, Size};

// Places in use and snapshots alive; both 0 if refused. Refusal: 20.
#[unsafe(no_mangle)]
pub extern "C" fn rowstore_count(records: &[u8], used: &mut usize, snapshots: &mut usize) -> u8
    ensures { HostCounts records.now result used.new snapshots.new }
{
    match host_count::count(records) {
        Ok(counts) => {
            *used = counts.used;
            *snapshots = counts.snapshots;
            0
        }
        Err(refusal) => {
            *used = 0;
            *snapshots = 0;
            refusal.number()
        }
    }
}

// A snapshot of the version with a tag, under a new tag. Refusals: 20, 4, 21, 22, 23.
#[unsafe(no_mangle)]
pub extern "C" fn rowstore_snapshot(records: &mut [u8], source: u16, tag: u16) -> u8
    ensures { HostSnapshots records.old source tag result records.new }
{
    answers::answer_of(&host_snapshot::snapshot(records, source, tag))
}

// The version with a tag goes. Refusals: 20, 5, 21.
#[unsafe(no_mangle)]
pub extern "C" fn rowstore_delete(records: &mut [u8], tag: u16) -> u8
    ensures { HostDeletes records.old tag result records.new }
{
    answers::answer_of(&host_delete::delete(records, tag))
}

// A row of the version with a tag is written. Refusals: 20, 2, 3, 21, 24.
#[unsafe(no_mangle)]
pub extern "C" fn rowstore_write(
    records: &mut [u8],
    places: &mut [u8],
    tag: u16,
    row: usize,
    bytes: &[u8],
) -> u8
    ensures { HostWrites records.old places.old tag row bytes.now result (records.new, places.new) }
{
    answers::answer_of(&host_write::write(records, places, tag, Row(row), bytes))
}

// Rows of the version with a tag are written, in their order, until one is refused; `done` counts those that were. Refusals: 20, 25, 2, 21, 3, 24.
#[unsafe(no_mangle)]
pub extern "C" fn rowstore_border(
    records: &mut [u8],
    places: &mut [u8],
    tag: u16,
    rows: &[u16],
    bytes: &[u8],
    done: &mut usize,
) -> u8
    ensures { HostBorders records.old places.old tag rows.now bytes.now result done.new (records.new, places.new) }
{
    let ended = host_border::border(records, places, tag, rows, bytes);
    *done = ended.done;
    match ended.refusal {
        Some(refusal) => refusal.number(),
        None => 0,
    }
}

// A row of the version with a tag is copied to `out`, and `sharers` says how many living versions share it; 0 if refused. Refusals: 20, 2, 3, 21.
#[unsafe(no_mangle)]
pub extern "C" fn rowstore_read(
    records: &[u8],
    places: &[u8],
    tag: u16,
    row: usize,
    out: &mut [u8],
    sharers: &mut usize,
) -> u8
    ensures { HostReads records.now places.now tag row out.old result (out.new, sharers.new) }
{
    match host_read::read(records, places, tag, Row(row), out) {
        Ok(many) => {
            *sharers = many;
            0
        }
        Err(refusal) => {
            *sharers = 0;
            refusal.number()
        }
    }
}

// A store of `rows` rows of `width` bytes in `place_count` places. Refusals: 1, 2.
#[unsafe(no_mangle)]
pub extern "C" fn rowstore_open(
    records: &mut [u8],
    places: &mut [u8],
    rows: usize,
    width: usize,
    place_count: usize,
) -> u8
    ensures { HostOpens (size_of rows width place_count) records.old places.old result (records.new, places.new) }
{
    let size = Size {
        rows,
        width,
        places: place_count,
    };
    answers::answer_of(&host_open::open(records, places, size))
}

// A row of 1,024 hooks is turned to cable order, into `out`. Refusal: 2.
#[unsafe(no_mangle)]
pub extern "C" fn rowstore_to_cable(row: &[u8], out: &mut [u8]) -> u8
    ensures { Turns to_cable row.now out.old result out.new }
{
    answers::answer_of(&cabling::to_cable(row, out))
}

// A row in cable order is turned back, into `out`. Refusal: 2.
#[unsafe(no_mangle)]
pub extern "C" fn rowstore_from_cable(row: &[u8], out: &mut [u8]) -> u8
    ensures { Turns from_cable row.now out.old result out.new }
{
    answers::answer_of(&cabling::from_cable(row, out))
}

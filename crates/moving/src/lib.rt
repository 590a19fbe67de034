// Writing a shared row of a snapshot: to a free place.
#![tactic(auto)]

ghost use Rattle.std.specs.Prelude.{◌≡◌, ◌≢◌};
ghost use Rattle.records.specs.Lent.{lent, SameLent};
ghost use Rattle.edits.specs.Edits.{FreeEntry};
ghost use Rattle.owning.specs.Owning.{held_in, Writable};
ghost use Rattle.moving.specs.Moving.{held_to_free};

use measures::Row;
use records::Records;

// A shared row of the snapshot at node v goes to the free place of entry i.
pub fn move_row(
    records: &mut Records<'_>,
    places: &mut [u8],
    v: usize,
    r: Row,
    bytes: &[u8],
    i: usize,
)
    requires { Writable (lent records.old) places.old v r.0 bytes.now × (v ≢ 0) × FreeEntry (lent records.old) i }
    ensures same { SameLent records.old records.new }
    ensures moved { held_in records.new places.new ≡ held_to_free (lent records.old) places.old r.0 bytes.now v i }
{
    let rows = records.size.rows;
    let width = records.size.width;
    let stand = owning::parted(records.tree, v);
    owning::enter(records, i, stand.node, r);
    records.tree = stand.tree;
    placing::put(places, width, reading::held(rows, i), bytes);
}

// Writing a shared row of the origin: the old row is saved before its place is written.
#![tactic(auto)]

ghost use Rattle.std.specs.Prelude.{◌≡◌};
ghost use Rattle.records.specs.Lent.{lent, SameLent};
ghost use Rattle.edits.specs.Edits.{FreeEntry};
ghost use Rattle.nodes.specs.Nodes.{first_child};
ghost use Rattle.owning.specs.Owning.{held_in, Writable};
ghost use Rattle.saving.specs.Saving.{saving_by};

use measures::Row;
use records::Records;

// A shared row of the origin: its old bytes go to the free place of entry i, for node 0's child; then its own place is written.
pub fn save_row(records: &mut Records<'_>, places: &mut [u8], r: Row, bytes: &[u8], i: usize)
    requires { Writable (lent records.old) places.old 0 r.0 bytes.now × FreeEntry (lent records.old) i }
    ensures same { SameLent records.old records.new }
    ensures saved { held_in records.new places.new
        ≡ saving_by (lent records.old) places.old r.0 bytes.now (first_child records.old.tree 0) i }
{
    let Some(c) = nodes::child(&records.tree, 0) else {
        return;
    };
    let rows = records.size.rows;
    let width = records.size.width;
    renewing::renew(places, width, r.home(), reading::held(rows, i), bytes);
    owning::enter(records, i, c, r);
}

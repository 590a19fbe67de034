// A row that others read goes apart from theirs: to a free place, or, of the origin, its old bytes do.
#![tactic(auto)]

ghost use Rattle.std.specs.Prelude.{◌≡◌, true};
ghost use Rattle.std.proofs.Math.Option.{some};
ghost use Rattle.answers.specs.Results.{answer_of};
ghost use Rattle.records.specs.Records.{table};
ghost use Rattle.records.specs.Lent.{lent, SameLent};
ghost use Rattle.answers.specs.Tests.{refusal};
ghost use Rattle.soundness.specs.Judged.{Leaves};
ghost use Rattle.sharing.specs.Sharing.{free_entry, shared_at};
ghost use Rattle.owning.specs.Owning.{held_in, Writable};
ghost use Rattle.writes.specs.Unsharing.{full_test, shared_to};

use answers::Refusal;
use measures::Row;
use records::Records;

// A shared row that has passed every test but 24.
pub fn unshare(
    records: &mut Records<'_>,
    places: &mut [u8],
    v: usize,
    r: Row,
    bytes: &[u8],
) -> Result<(), Refusal>
    requires { Writable (lent records.old) places.old v r.0 bytes.now
        × (shared_at records.old.tree (table (lent records.old)) v r.0 ≡ true) }
    ensures same { SameLent records.old records.new }
    ensures ends { Leaves (refusal (full_test (lent records.old) (some v) r.0))
        (held_in records.old places.old)
        (shared_to (lent records.old) places.old r.0 bytes.now v (free_entry records.old.node.now))
        (answer_of result)
        (held_in records.new places.new) }
{
    let Some(i) = sharing::free_entry(records.view().node) else {
        return Err(Refusal::PlacesFull);
    };
    if v == 0 {
        saving::save_row(records, places, r, bytes, i);
    } else {
        moving::move_row(records, places, v, r, bytes, i);
    }
    Ok(())
}

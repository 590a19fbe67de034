// A row that may be written: in its own place if no other version shares it, else apart from theirs.
#![tactic(auto)]

ghost use Rattle.std.proofs.Math.Option.{some};
ghost use Rattle.answers.specs.Results.{answer_of};
ghost use Rattle.records.specs.Records.{table};
ghost use Rattle.records.specs.Lent.{lent, SameLent};
ghost use Rattle.sharing.specs.Sharing.{Finds};
ghost use Rattle.answers.specs.Tests.{refusal};
ghost use Rattle.soundness.specs.Judged.{Leaves};
ghost use Rattle.owning.specs.Owning.{held_in, Writable};
ghost use Rattle.writes.specs.Unsharing.{full_test};
ghost use Rattle.writes.specs.Storing.{written_at};

use answers::Refusal;
use measures::Row;
use records::Records;
use sharing::Looked;

// A row that has passed every test but 24, as the lookup finds it.
pub fn store_row(
    records: &mut Records<'_>,
    places: &mut [u8],
    v: usize,
    r: Row,
    bytes: &[u8],
    seen: Looked,
) -> Result<(), Refusal>
    requires { Writable (lent records.old) places.old v r.0 bytes.now
        × Finds records.old.tree (table (lent records.old)) v r.0 seen }
    ensures same { SameLent records.old records.new }
    ensures ends { Leaves (refusal (full_test (lent records.old) (some v) r.0))
        (held_in records.old places.old)
        (written_at (lent records.old) places.old r.0 bytes.now v)
        (answer_of result)
        (held_in records.new places.new) }
{
    let width = records.size.width;
    if seen.sharers < 2 {
        placing::put(places, width, seen.place, bytes);
        return Ok(());
    }
    unsharing::unshare(records, places, v, r, bytes)
}

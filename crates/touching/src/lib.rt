// A row that is written as it is already is left alone; any other is stored.
#![tactic(auto)]

ghost use Rattle.std.specs.Prelude.{◌≡◌};
ghost use Rattle.std.proofs.Math.Option.{some};
ghost use Rattle.answers.specs.Results.{answer_of};
ghost use Rattle.basics.specs.Equal.{equal};
ghost use Rattle.measures.specs.Measures.{bytes_at};
ghost use Rattle.placing.specs.Placing.{Inside};
ghost use Rattle.records.specs.Lent.{lent, SameLent};
ghost use Rattle.answers.specs.Tests.{refusal};
ghost use Rattle.soundness.specs.Judged.{Leaves};
ghost use Rattle.owning.specs.Owning.{held_in, Writable};
ghost use Rattle.writes.specs.Touching.{room_test, saved_at};

use answers::Refusal;
use measures::{Place, Row};
use records::Records;

// Does the place hold these bytes already?
fn holds(places: &[u8], width: usize, place: Place, bytes: &[u8]) -> bool
    requires { Inside places.now width place.0 }
    ensures { result ≡ equal bytes.now (bytes_at width places.now place.0) }
{
    bytes == placing::part(places, width, place)
}

// A row that has passed every test but 24.
pub fn save_row(
    records: &mut Records<'_>,
    places: &mut [u8],
    v: usize,
    r: Row,
    bytes: &[u8],
) -> Result<(), Refusal>
    requires { Writable (lent records.old) places.old v r.0 bytes.now }
    ensures same { SameLent records.old records.new }
    ensures ends { Leaves (refusal (room_test (lent records.old) places.old (some v) r.0 bytes.now))
        (held_in records.old places.old)
        (saved_at (lent records.old) places.old r.0 bytes.now v)
        (answer_of result)
        (held_in records.new places.new) }
{
    let width = records.size.width;
    let seen = sharing::lookup(&records.tree, &records.view().entries(), v, r);
    if holds(places, width, seen.place, bytes) {
        return Ok(());
    }
    storing::store_row(records, places, v, r, bytes, seen)
}

// Writing a row: its tests in a row, the last by the room that is left.
#![tactic(auto)]

ghost use Rattle.std.specs.Prelude.{◌≡◌, ◌*◌, length};
ghost use Rattle.answers.specs.Results.{answer_of};
ghost use Rattle.records.specs.Lent.{lent, SameLent};
ghost use Rattle.records.specs.Sound.{Sound};
ghost use Rattle.soundness.specs.Judged.{Leaves};
ghost use Rattle.owning.specs.Owning.{held_in};
ghost use Rattle.writes.specs.Writing.{write_verdict, written, WriteEnds};

use answers::Refusal;
use measures::Row;
use records::Records;

// A write on sound records, its lengths right. Refusals: 3, 21, 24.
pub fn write_row(
    records: &mut Records<'_>,
    places: &mut [u8],
    tag: u16,
    r: Row,
    bytes: &[u8],
) -> Result<(), Refusal>
    requires { Sound (lent records.old) × (length places.old ≡ records.old.size.places * records.old.size.width)
        × (length bytes.now ≡ records.old.size.width) }
    ensures same { SameLent records.old records.new }
    ensures ends { Leaves (write_verdict (lent records.old) places.old tag r.0 bytes.now)
        (held_in records.old places.old)
        (written (lent records.old) places.old tag r.0 bytes.now)
        (answer_of result)
        (held_in records.new places.new) }
{
    let rows = records.size.rows;
    if !r.is_below(rows) {
        return Err(Refusal::BadRow);
    }
    let Some(v) = tree::version(&records.tree, tag) else {
        return Err(Refusal::UnknownTag);
    };
    touching::save_row(records, places, v, r, bytes)
}

// Refusals: 20, 2, 3, 21, 24. A refusal changes nothing.
pub fn write(
    records: &mut Records<'_>,
    places: &mut [u8],
    tag: u16,
    r: Row,
    bytes: &[u8],
) -> Result<(), Refusal>
    ensures same { SameLent records.old records.new }
    ensures ends { WriteEnds (lent records.old) places.old tag r.0 bytes.now (answer_of result) (held_in records.new places.new) }
{
    if !soundness::sound(&records.view()) {
        return Err(Refusal::Unsound);
    }
    let size = records.size;
    if places.len() != size.places * size.width {
        return Err(Refusal::BadLength);
    }
    if bytes.len() != size.width {
        return Err(Refusal::BadLength);
    }
    write_row(records, places, tag, r, bytes)
}

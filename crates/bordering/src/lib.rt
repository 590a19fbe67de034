// Writing a border: its tests in a row, then its rows in their order.
#![tactic(auto)]

ghost use Rattle.records.specs.Lent.{lent, SameLent};
ghost use Rattle.owning.specs.Owning.{held_in};
ghost use Rattle.borders.specs.Bordering.{BorderEnds};
ghost use Rattle.borders.specs.Refused.{number_of};

use answers::Refusal;
use records::Records;
use sequencing::Bordered;

// Refusals: 20, 25, 2, 21, and then those of single writes, 3 and 24. What was done before a row that is refused stays; else a
// refusal changes nothing.
pub fn border(
    records: &mut Records<'_>,
    places: &mut [u8],
    tag: u16,
    rows: &[u16],
    bytes: &[u8],
) -> Bordered
    ensures same { SameLent records.old records.new }
    ensures ends { BorderEnds (lent records.old) places.old tag rows.now bytes.now
        (number_of result.refusal) result.done
        (held_in records.new places.new) }
{
    if !soundness::sound(&records.view()) {
        return sequencing::refused(Refusal::Unsound);
    }
    if rows.len() > 64 {
        return sequencing::refused(Refusal::TooManyRows);
    }
    let size = records.size;
    if places.len() != size.places * size.width {
        return sequencing::refused(Refusal::BadLength);
    }
    if bytes.len() != rows.len() * size.width {
        return sequencing::refused(Refusal::BadLength);
    }
    let Some(_) = tree::version(&records.tree, tag) else {
        return sequencing::refused(Refusal::UnknownTag);
    };
    sequencing::write_rows(records, places, tag, rows, bytes)
}

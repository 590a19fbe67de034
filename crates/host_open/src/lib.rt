// An opening, the records being bytes: they are laid where they are lent.
#![tactic(auto)]

ghost use Rattle.std.specs.Prelude.{◌≡◌, length};
ghost use Rattle.answers.specs.Results.{answer_of};
ghost use Rattle.measures.specs.Measures.{Within};
ghost use Rattle.layout.specs.Layout.{records_size, stored};
ghost use Rattle.host_open.specs.Opens.{HostOpens, first_records};

use answers::Refusal;
use laying::Writer;
use measures::Size;

// The records of an opened store: its measures, node 0 alive, and zeros.
fn lay_first(records: &mut [u8], size: Size)
    requires { Within size × (length records.old ≡ records_size size) }
    ensures { records.new ≡ stored (first_records size) }
{
    let first = recording::head(size);
    let mut out = Writer {
        bytes: records,
        end: 0,
    };
    out.lay_numbers(&first);
    out.put(1);
    let end = out.end;
    opening::clear(&mut out.bytes[end..]);
}

// A store of given measures. Refusals: 1, 2.
pub fn open(records: &mut [u8], places: &mut [u8], size: Size) -> Result<(), Refusal>
    ensures { HostOpens size records.old places.old (answer_of result) (records.new, places.new) }
{
    if !size.within() {
        return Err(Refusal::BadSize);
    }
    if places.len() != size.places * size.width {
        return Err(Refusal::BadLength);
    }
    if records.len() != layout::records_size(size) {
        return Err(Refusal::BadLength);
    }
    opening::clear(places);
    lay_first(records, size);
    Ok(())
}

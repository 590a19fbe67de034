// The rows of a border, written in their order until one is refused.
#![tactic(auto)]

ghost use Rattle.std.specs.Prelude.{◌≡◌, Some, List, ℕ, ◌*◌, ◌≤◌, ◌<◌, length, take, drop};
ghost use Rattle.basics.specs.Decide.{at};
ghost use Rattle.answers.specs.Results.{answer_of};
ghost use Rattle.records.specs.Lent.{lent, SameLent};
ghost use Rattle.records.specs.Sound.{Sound};
ghost use Rattle.soundness.specs.Judged.{Leaves};
ghost use Rattle.owning.specs.Owning.{held_in};
ghost use Rattle.borders.specs.Refused.{number_of};
ghost use Rattle.borders.specs.Bordering.{row_verdict, row_written, rows_written, Ends};

use answers::Refusal;
use measures::Row;
use records::Records;

// How many rows were done, and the refusal that ended them.
#[derive(Clone, Copy)]
pub struct Bordered {
    pub refusal: Option<Refusal>,
    pub done: usize,
}

// No row is done.
pub fn refused(refusal: Refusal) -> Bordered
    ensures { (result.refusal ≡ Some refusal) × (result.done ≡ 0) }
{
    Bordered {
        refusal: Some(refusal),
        done: 0,
    }
}

// Row i of a border, written as a single one is. Refusals: 3, 24.
fn write_at(
    records: &mut Records<'_>,
    places: &mut [u8],
    tag: u16,
    rows: &[u16],
    bytes: &[u8],
    i: usize,
) -> Result<(), Refusal>
    requires { Sound (lent records.old) × (length places.old ≡ records.old.size.places * records.old.size.width)
        × (length bytes.now ≡ length rows.now * records.old.size.width) × (length rows.now ≤ 64) × (i < length rows.now) }
    ensures same { SameLent records.old records.new }
    ensures ends { let row : ℕ × List ℕ = (at rows.now i, take records.old.size.width (drop (i * records.old.size.width) bytes.now)) in
        Leaves (row_verdict records.old.size tag (held_in records.old places.old) row)
        (held_in records.old places.old)
        (row_written records.old.size tag (held_in records.old places.old) row)
        (answer_of result)
        (held_in records.new places.new) }
{
    let width = records.size.width;
    let r = Row(usize::from(rows[i]));
    let from = i * width;
    let to = from + width;
    writing::write_row(records, places, tag, r, &bytes[from..to])
}

// Every row, until one is refused.
pub fn write_rows(
    records: &mut Records<'_>,
    places: &mut [u8],
    tag: u16,
    rows: &[u16],
    bytes: &[u8],
) -> Bordered
    requires { Sound (lent records.old) × (length places.old ≡ records.old.size.places * records.old.size.width)
        × (length bytes.now ≡ length rows.now * records.old.size.width) × (length rows.now ≤ 64) }
    ensures same { SameLent records.old records.new }
    ensures ends { Ends (rows_written records.old.size tag (held_in records.old places.old) rows.now bytes.now)
        (number_of result.refusal) result.done
        (held_in records.new places.new) }
{
    // The arrays of the tree are whole, and each row leaves them so.
    let tree = &records.tree;
    prove!(
        tree.state[..].len() == 128 && tree.tag[..].len() == 128 && tree.parent[..].len() == 128
    );
    for i in 0..rows.len() {
        if let Err(refusal) = write_at(records, places, tag, rows, bytes, i) {
            return Bordered {
                refusal: Some(refusal),
                done: i,
            };
        }
    }
    Bordered {
        refusal: None,
        done: rows.len(),
    }
}

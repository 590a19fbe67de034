// The call that reads a row of a version. It changes nothing.
#![tactic(auto)]

ghost use Rattle.std.specs.Prelude.{◌≡◌};
ghost use Rattle.answers.specs.Results.{answer_of};
ghost use Rattle.records.specs.Lent.{seen};
ghost use Rattle.placing.specs.Placing.{Lies};
ghost use Rattle.reads.specs.Reads.{ReadEnds, ReadPart};
ghost use Rattle.queries.specs.Lent.{bytes_of, sharers_of, part_of};

use answers::Refusal;
use measures::Row;
use records::View;

// A row where it lies in the places, and how many living versions share it.
#[derive(Clone, Copy)]
pub struct Lent<'a> {
    pub bytes: &'a [u8],
    pub sharers: usize,
}

// Refusals: 20, 2, 3, 21.
pub fn read<'a>(view: &View, places: &'a [u8], tag: u16, r: Row) -> Result<Lent<'a>, Refusal>
    ensures ends { ReadEnds (seen view.now) places.now tag r.0 (answer_of result) (bytes_of result) (sharers_of result) }
    ensures part { ReadPart (seen view.now) places.now tag r.0 places.entry.ref_ptr (part_of places.entry.ref_ptr result) }
{
    if !soundness::sound(view) {
        return Err(Refusal::Unsound);
    }
    let size = view.size;
    if places.len() != size.places * size.width {
        return Err(Refusal::BadLength);
    }
    if !r.is_below(size.rows) {
        return Err(Refusal::BadRow);
    }
    let Some(n) = tree::version(view.tree, tag) else {
        return Err(Refusal::UnknownTag);
    };
    let looked = sharing::lookup(view.tree, &view.entries(), n, r);
    Ok(Lent {
        bytes: placing::part(places, size.width, looked.place),
        sharers: looked.sharers,
    })
}

// The part of the places that a read hands out: of a refused one the empty part at their front.
pub fn part<'a>(read: Result<Lent<'a>, Refusal>, places: &'a [u8]) -> &'a [u8]
    ensures bytes { result.now ≡ bytes_of read.entry }
    ensures lies { Lies (part_of places.entry.ref_ptr read.entry) 0 result.ref_ptr }
{
    match read {
        Ok(lent) => lent.bytes,
        Err(_) => &places[..0],
    }
}

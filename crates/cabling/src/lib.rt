// A row turned to cable order and back, or refused.
#![tactic(auto)]

ghost use Rattle.answers.specs.Results.{answer_of};
ghost use Rattle.cables.specs.Cables.{to_cable, from_cable, Turns};
ghost use Rattle.cabling.specs.Cabling.{turn_by};

use answers::Refusal;

// To cable order, or back from it.
#[derive(Clone, Copy, PartialEq, Eq)]
enum Way {
    To,
    From,
}

// One of the two turns: the tests and the table are those of both.
fn turn(row: &[u8], out: &mut [u8], way: Way) -> Result<(), Refusal>
    ensures { Turns (turn_by way) row.now out.old (answer_of result) out.new }
{
    if row.len() != 128 {
        return Err(Refusal::BadLength);
    }
    if out.len() != 128 {
        return Err(Refusal::BadLength);
    }
    let order = hooks::order();
    match way {
        Way::To => gathering::gather(row, &order, out),
        Way::From => spreading::spread(row, &order, out),
    }
    Ok(())
}

// Refusal: 2, any length but 128 of the row or of the output, which then stays as it is.
pub fn to_cable(row: &[u8], out: &mut [u8]) -> Result<(), Refusal>
    ensures { Turns to_cable row.now out.old (answer_of result) out.new }
{
    turn(row, out, Way::To)
}

// Refusal: 2, as above.
pub fn from_cable(row: &[u8], out: &mut [u8]) -> Result<(), Refusal>
    ensures { Turns from_cable row.now out.old (answer_of result) out.new }
{
    turn(row, out, Way::From)
}

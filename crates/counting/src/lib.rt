// The call that counts: places in use and snapshots alive. It changes nothing.
#![tactic(auto)]

ghost use Rattle.answers.specs.Results.{answer_of};
ghost use Rattle.records.specs.Lent.{seen};
ghost use Rattle.counting.specs.Counted.{used_of, snapshots_of};
ghost use Rattle.counting.specs.Counting.{CountEnds};

use answers::Refusal;
use records::View;

// Places in use and snapshots alive.
#[derive(Clone, Copy, Debug, PartialEq, Eq)]
pub struct Counts {
    pub used: usize,
    pub snapshots: usize,
}

// Refusal: 20.
pub fn count(view: &View) -> Result<Counts, Refusal>
    ensures { CountEnds (seen view.now) (answer_of result) (used_of result) (snapshots_of result) }
{
    if !soundness::sound(view) {
        return Err(Refusal::Unsound);
    }
    let used = reading::used(&view.entries());
    let snapshots = tree::snapshots(view.tree);
    Ok(Counts { used, snapshots })
}

// Taking a snapshot: its tests, and the tree that it leaves. No place is touched.
#![tactic(auto)]

ghost use Rattle.answers.specs.Results.{answer_of, left_of};
ghost use Rattle.records.specs.Lent.{seen};
ghost use Rattle.takes.specs.Taking.{SnapshotEnds};

use answers::Refusal;
use records::View;
use trees::Tree;

// Refusals: 20, 4, 21, 22, 23.
pub fn snapshot(view: &View, source: u16, new: u16) -> Result<Tree, Refusal>
    ensures { SnapshotEnds (seen view.now) source new (answer_of result) (left_of view.now.tree.now result) }
{
    if !soundness::sound(view) {
        return Err(Refusal::Unsound);
    }
    if new == 0 {
        return Err(Refusal::ZeroTag);
    }
    let tree = view.tree;
    let Some(v) = tree::version(tree, source) else {
        return Err(Refusal::UnknownTag);
    };
    if let Some(_) = tree::version(tree, new) {
        return Err(Refusal::TagAlive);
    }
    if tree::snapshots(tree) >= 64 {
        return Err(Refusal::SnapshotsFull);
    }
    Ok(growing::with_snapshot(*tree, v, new))
}

// Deleting a snapshot: the places that only it reads are freed, wherever their entries stand; its node goes, or stays as a ghost for its children.
#![tactic(auto)]

ghost use Rattle.std.specs.Prelude.{◌≡◌, ◌*◌, ◌≤◌, length};
ghost use Rattle.answers.specs.Results.{answer_of};
ghost use Rattle.records.specs.Records.{table};
ghost use Rattle.records.specs.Lent.{lent, SameLent};
ghost use Rattle.table.specs.Rules.{Marked, Blank};
ghost use Rattle.deletes.specs.Deleting.{left_in, deleted_at, Deletable, DeleteEnds};

use answers::Refusal;
use listing::NodesInUse;
use records::Records;

// The version at node v goes, wherever it stands, and with it what only it read. The marks are those of the records' check.
fn remove(records: &mut Records<'_>, marks: &[u8], v: usize)
    requires { Deletable (lent records.old) v × Marked (table (lent records.old)) marks.now (length records.old.node.now) }
    ensures same { SameLent records.old records.new }
    ensures removed { left_in records.new ≡ deleted_at (lent records.old) v }
{
    let tree = records.tree;
    let gone = pruning::ghosted(tree, v);
    let mut list = [0u8; 128];
    let k = listing::list(&tree.state, &mut list);
    let nodes = NodesInUse {
        tree: &tree,
        used: &list[..k],
    };
    freeing::free_alone(&nodes, &gone, records, marks, v);
    let stand = pruning::pruned(gone, v);
    records.tree = pruning::settled(stand.tree, stand.node, records.node);
}

// The delete, with marks that are all 0. A version without a child right below a living one is quickly gone.
fn delete_marked(records: &mut Records<'_>, marks: &mut [u8], tag: u16) -> Result<(), Refusal>
    requires { Blank records.old.size.rows marks.old }
    ensures same { SameLent records.old records.new }
    ensures ends { DeleteEnds (lent records.old) tag (answer_of result) (left_in records.new) }
{
    if !soundness::judged(&records.view(), marks) {
        return Err(Refusal::Unsound);
    }
    if tag == 0 {
        return Err(Refusal::OriginTag);
    }
    let Some(v) = tree::version(&records.tree, tag) else {
        return Err(Refusal::UnknownTag);
    };
    if trimming::loose(&records.tree, v) {
        trimming::free_own(records, v);
        records.tree = pruning::emptied(records.tree, v);
        return Ok(());
    }
    remove(records, marks, v);
    Ok(())
}

// The delete, with N marks.
fn delete_with<const N: usize>(records: &mut Records<'_>, tag: u16) -> Result<(), Refusal>
    requires few { N ≤ 16384 }
    requires room { records.old.size.rows ≤ 1024 → records.old.size.rows * 16 ≤ N }
    ensures same { SameLent records.old records.new }
    ensures ends { DeleteEnds (lent records.old) tag (answer_of result) (left_in records.new) }
{
    let mut marks = [0u8; N];
    delete_marked(records, &mut marks, tag)
}

// Refusals: 20, 5, 21. A refusal changes nothing. There are as many marks as the rows call for: 16 bytes for each.
// Its frame stays its own: together with a caller's buffers it would be probed in a loop.
#[inline(never)]
pub fn delete(records: &mut Records<'_>, tag: u16) -> Result<(), Refusal>
    ensures same { SameLent records.old records.new }
    ensures ends { DeleteEnds (lent records.old) tag (answer_of result) (left_in records.new) }
{
    // The three sizes stand here, since a function has the size of an array only as a parameter of its own.
    if records.size.rows <= 16 {
        return delete_with::<256>(records, tag);
    }
    if records.size.rows <= 128 {
        return delete_with::<2048>(records, tag);
    }
    delete_with::<16384>(records, tag)
}

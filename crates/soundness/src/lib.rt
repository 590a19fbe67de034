// Are the records sound? The seven rules of SPEC 4, in their order, for any contents at all.
#![tactic(auto)]

ghost use Rattle.std.specs.Prelude.{◌*◌, ◌≤◌, length};
ghost use Rattle.basics.specs.Decide.{Decides};
ghost use Rattle.records.specs.Records.{table};
ghost use Rattle.records.specs.Lent.{seen};
ghost use Rattle.records.specs.Sound.{Sound};
ghost use Rattle.table.specs.Rules.{Blank, Verdict};

use records::View;

// The seven rules, with marks that are all 0. If they are met, the marks are left for each node and row that an entry names.
pub fn judged(view: &View, marks: &mut [u8]) -> bool
    requires { Blank view.now.size.rows marks.old }
    ensures { Verdict (Sound (seen view.now)) (table (seen view.now)) (length view.now.node.now) marks.new result }
{
    let size = view.size;
    size.within()
        && view.node.len() == size.places - size.rows
        && view.row.len() == size.places - size.rows
        && rules::all_sound(view.tree, &view.entries(), marks)
}

// The seven rules, with N marks.
fn sound_with<const N: usize>(view: &View) -> bool
    requires few { N ≤ 16384 }
    requires room { view.now.size.rows ≤ 1024 → view.now.size.rows * 16 ≤ N }
    ensures { Decides result (Sound (seen view.now)) }
{
    let mut marks = [0u8; N];
    judged(view, &mut marks)
}

// The seven rules, with as many marks as the rows call for: 16 bytes for each. The three sizes stand here as they do: to hand the size of an array
// on, a function has to have it as a parameter.
pub fn sound(view: &View) -> bool
    ensures { Decides result (Sound (seen view.now)) }
{
    if view.size.rows <= 16 {
        return sound_with::<256>(view);
    }
    if view.size.rows <= 128 {
        return sound_with::<2048>(view);
    }
    sound_with::<16384>(view)
}

// Going up by the notes of a row: from any node, and without the table.
#![tactic(auto)]

ghost use Rattle.std.specs.Prelude.{◌≡◌, ◌≢◌, ◌+◌};
ghost use Rattle.tree.specs.Rules.{Climbs};
ghost use Rattle.notes.specs.Notes.{Climbed};

use measures::{Place, Row};
use trees::Tree;

// The place that a note tells.
fn told(note: u16) -> Place
    requires { note ≢ 0 }
    ensures { result.0 + 1 ≡ note }
{
    Place(usize::from(note) - 1)
}

// The place that a node reads row r from, by the notes of the row: going up, the first own one, else the origin's.
pub fn climb(tree: &Tree, notes: &[u16; 128], n: usize, r: Row) -> Place
    requires { Climbs tree.now n }
    ensures { Climbed tree.now notes.now n r.0 result.0 }
{
    let mut m = n;
    for k in 0..128usize {
        if m == 0 {
            return r.home();
        }
        let above = usize::from(tree.parent[m]);
        let note = notes[m];
        if note != 0 {
            return told(note);
        }
        m = above;
    }
    r.home()
}

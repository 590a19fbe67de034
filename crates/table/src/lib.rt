// A mark for each node and row that an entry of the table names, and what going up past such marks meets.
#![tactic(auto)]

ghost use Rattle.std.specs.Prelude.{◌≡◌, ◌<◌};
ghost use Rattle.basics.specs.Decide.{Decides};
ghost use Rattle.table.specs.Rules.{slot, Seeker, Meets};

use measures::Row;
use trees::Tree;

// Where the mark for a node and a row stands among the bits.
pub fn slot(n: usize, r: Row) -> usize
    requires { (n < 128) × (r.0 < 1024) }
    ensures { result ≡ slot n r.0 }
{
    r.0 * 128 + n
}

// Is g the first node, from n up, that has its own row r? It has one, and so it is marked.
pub fn meets(tree: &Tree, marks: &[u8], n: usize, g: usize, r: Row) -> bool
    requires { Seeker tree.now marks.now n g r.0 }
    ensures { Decides result (Meets tree.now marks.now r.0 g n) }
{
    let mut m = n;
    for k in 0..128usize {
        if m == g {
            return true;
        }
        if m == 0 {
            return false;
        }
        if bits::has(marks, slot(m, r)) {
            return false;
        }
        m = usize::from(tree.parent[m]);
    }
    false
}

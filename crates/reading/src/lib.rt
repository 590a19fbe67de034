// The place of an entry, and the places in use.
#![tactic(auto)]

ghost use Rattle.std.specs.Prelude.{◌≡◌, ◌+◌, ◌≤◌, length};
ghost use Rattle.trees.specs.Trees.{entries_of, used};

use measures::Place;
use trees::Entries;

// The place of an entry.
pub fn held(rows: usize, i: usize) -> Place
    requires { rows + i ≤ 4096 }
    ensures { result.0 ≡ rows + i }
{
    Place(rows + i)
}

// How many places are in use: the origin's, and those of the exceptions. The loop adds where a chain would filter: so the compiler takes many at once.
pub fn used(table: &Entries) -> usize
    requires { table.now.rows + length table.now.node.now ≤ 4096 }
    ensures { result ≡ used (entries_of table.now) }
{
    let mut sum = table.rows;
    for n in table.node {
        if *n != 0 {
            sum += 1;
        }
    }
    sum
}

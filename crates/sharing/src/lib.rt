// Where a row is read and by how many, and is there a free place?
#![tactic(auto)]

ghost use Rattle.std.specs.Prelude.{◌≡◌, ◌≤◌, length};
ghost use Rattle.basics.specs.Decide.{Decides};
ghost use Rattle.trees.specs.Trees.{entries_of};
ghost use Rattle.tree.specs.Rules.{found_of, Parents};
ghost use Rattle.reading.specs.Lookup.{Looking};
ghost use Rattle.sharing.specs.Sharing.{ReadersOf, Finds, free_entry};
ghost use Rattle.sharing.specs.Laws.{Counted, Full, Passed};

use measures::{Place, Row};
use trees::{Entries, Tree};

// The place from which a version reads a row, and how many living versions read it from there.
#[derive(Clone, Copy)]
pub struct Looked {
    pub place: Place,
    pub sharers: usize,
}

// How many living versions read row r from the place p, by the notes of the row: those from one node to another are counted to the sum of those before.
fn readers_in(
    tree: &Tree,
    notes: &[u16; 128],
    p: Place,
    r: Row,
    from: usize,
    to: usize,
    before: usize,
) -> usize
    requires { Parents tree.now × (from ≤ to) × (to ≤ 128) × Counted tree.now notes.now r.0 p.0 from before }
    ensures { Counted tree.now notes.now r.0 p.0 to result }
{
    let mut sum = before;
    for n in from..to {
        if tree.state[n] == 1 {
            let q = climbing::climb(tree, notes, n, r);
            if p == q {
                sum += 1;
            }
        }
    }
    sum
}

// All of them. Stretches of 16 nodes without one in use are passed as a whole.
fn readers(tree: &Tree, notes: &[u16; 128], p: Place, r: Row) -> usize
    requires { Parents tree.now }
    ensures { ReadersOf tree.now notes.now r.0 p.0 result }
{
    let mut sum = 0;
    for k in 0..8 {
        let n = 16 * k;
        if !listing::idle_from(&tree.state, n) {
            sum = readers_in(tree, notes, p, r, n, n + 16, sum);
        }
    }
    sum
}

// Looks a row up for the version at node v.
pub fn lookup(tree: &Tree, table: &Entries, v: usize, r: Row) -> Looked
    requires { Looking tree.now (entries_of table.now) v }
    ensures { Finds tree.now (entries_of table.now) v r.0 result }
{
    let notes = noting::notes(table.rows, table.node, table.row, r);
    let place = climbing::climb(tree, &notes, v, r);
    let sharers = readers(tree, &notes, place, r);
    Looked { place, sharers }
}

// Is no entry free? The least of their nodes is found, and none is left early: so the compiler takes many at once.
fn full(node: &[u8]) -> bool
    ensures { Decides result (Full node.now (length node.now)) }
{
    let mut least = 255;
    for n in node {
        if *n < least {
            least = *n;
        }
    }
    least != 0
}

// Up to where no entry is free, in stretches of 64. How far that is is left free, since the rest is gone through one by one.
fn full_to(node: &[u8]) -> usize
    ensures { Passed node.now result }
{
    for k in 0..node.len() / 64 {
        let from = 64 * k;
        if !full(&node[from..from + 64]) {
            return from;
        }
    }
    node.len() / 64 * 64
}

// The first entry that is free. Stretches without one are passed as a whole.
pub fn free_entry(node: &[u8]) -> Option<usize>
    ensures { result ≡ found_of (free_entry node.now) }
{
    for i in full_to(node)..node.len() {
        if node[i] == 0 {
            return Some(i);
        }
    }
    None
}

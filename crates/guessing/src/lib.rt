// A guess at a living version that reads a ghost's own row. Beyond being a node it is free, and `table::meets` tests it.
#![tactic(auto)]

ghost use Rattle.std.specs.Prelude.{◌<◌, ◌≢◌};
ghost use Rattle.trees.specs.Trees.{InUse};
ghost use Rattle.tree.specs.Rules.{Parents};
ghost use Rattle.table.specs.Rules.{MarkedRow, Nodes};

use listing::NodesInUse;
use measures::Row;
use trees::Tree;

// The nodes' children: each node's first one, and the one after each child; 0 where there is none. Arrays of node numbers: there is no heap on board.
#[derive(Clone, Copy)]
pub struct Children {
    pub first: [u8; 128],
    pub after: [u8; 128],
    pub ghost first_nodes: { Nodes first },
    pub ghost after_nodes: { Nodes after },
}

// How far a node is from a living one below it: it is alive itself, it has a living child, or neither.
#[derive(Clone, Copy, PartialEq, Eq)]
enum Distance {
    Alive,
    Near,
    Far,
}

// Part of a guess.
fn distance_of(tree: &Tree, near: &[u8; 128], n: usize) -> Distance
    requires { n < 128 }
{
    if tree.state[n] == 1 {
        Distance::Alive
    } else if usize::from(near[n]) != n {
        Distance::Near
    } else {
        Distance::Far
    }
}

// Node c goes to the front of its parent's children, if its distance is the wanted one. Only a guess is made from them.
fn push(tree: &Tree, near: &[u8; 128], wanted: Distance, kin: &mut Children, c: usize)
    requires { (c ≢ 0) × InUse tree.now c × Parents tree.now }
{
    if distance_of(tree, near, c) != wanted {
        return;
    }
    let p = usize::from(tree.parent[c]);
    kin.after[c] = kin.first[p];
    kin.first[p] = c as u8;
}

// The same for all nodes in use.
fn join(nodes: &NodesInUse, near: &[u8; 128], wanted: Distance, kin: &mut Children)
    requires { Parents nodes.now.tree.now }
{
    for c in nodes.used {
        push(nodes.tree, near, wanted, kin, usize::from(*c));
    }
}

// Each node's children, those that are nearest to a living one first. Beyond being nodes they are free.
pub fn kin(nodes: &NodesInUse, near: &[u8; 128]) -> Children
    requires { Parents nodes.now.tree.now }
{
    let mut kin = Children {
        first: [0u8; 128],
        after: [0u8; 128],
    };
    join(nodes, near, Distance::Far, &mut kin);
    join(nodes, near, Distance::Near, &mut kin);
    join(nodes, near, Distance::Alive, &mut kin);
    kin
}

// The node beside n that comes next, or beside one above it, as far as g; 0 if there is none. Part of a guess: beyond being a node it is free.
fn past(tree: &Tree, kin: &Children, g: usize, n: usize) -> usize
    requires { n < 128 }
    ensures { result < 128 }
{
    let mut m = n;
    for _ in 0..128 {
        if m == g {
            return 0;
        }
        if kin.after[m] != 0 {
            return usize::from(kin.after[m]);
        }
        let p = usize::from(tree.parent[m]);
        if p >= 128 {
            return 0;
        }
        m = p;
    }
    0
}

// Where to look after node n: at its first child, unless n has a mark at row r or no child, else past it. Part of a guess: beyond being a node it is free.
fn next(tree: &Tree, kin: &Children, marks: &[u8], g: usize, r: Row, n: usize) -> usize
    requires { MarkedRow marks.now r.0 × (n < 128) }
    ensures { result < 128 }
{
    if kin.first[n] != 0 && !bits::has(marks, table::slot(n, r)) {
        return usize::from(kin.first[n]);
    }
    past(tree, kin, g, n)
}

// A node that may be a living one that reads node g's own row r: all below g are looked at, past marked ones, until one is alive; 0 if none is.
// Only a guess, which `meets` tests: beyond being a node it is free.
pub fn reader(tree: &Tree, kin: &Children, marks: &[u8], g: usize, r: Row) -> usize
    requires { MarkedRow marks.now r.0 × (g < 128) }
    ensures { result < 128 }
{
    let mut n = usize::from(kin.first[g]);
    for _ in 0..128 {
        if n == 0 {
            return 0;
        }
        if tree.state[n] == 1 && !bits::has(marks, table::slot(n, r)) {
            return n;
        }
        n = next(tree, kin, marks, g, r, n);
    }
    0
}

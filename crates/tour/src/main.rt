// Opens a store, counts it and reads it; then reads a store whose records are written out here: the one that is
// drawn beside the records' definition, with 3 rows of 4 bytes in 7 places.
#![tactic(auto)]

use measures::Size;
use records::View;
use std::io;
use tour_lines::{Store, show_open};
use trees::Tree;

// A fresh store of 4 rows of 8 bytes in 6 places: the last row, a row that is not there, and a version that is not.
fn fresh(rt: &impl Print) -> io::Result<()> {
    let size = Size {
        rows: 4,
        width: 8,
        places: 6,
    };
    let mut places = [255; 48];
    let mut node = [255; 2];
    let mut row = [255; 2];
    let opened = opening::open(size, &mut places, &mut node, &mut row);
    show_open(rt, &opened)?;
    let Ok(tree) = opened else {
        return Ok(());
    };
    let records = View {
        size,
        tree: &tree,
        node: &node,
        row: &row,
    };
    let store = Store {
        records,
        places: &places,
    };
    store.show_count(rt)?;
    store.show_read(rt, 0, 3)?;
    store.show_read(rt, 0, 4)?;
    store.show_read(rt, 7, 0)
}

// The tree of the drawing: node 0, a ghost 1 below it, tags 7 and 9 below that, tag 8 below tag 7.
fn drawn_tree() -> Tree {
    let mut state = [0; 128];
    let mut tag = [0; 128];
    let mut parent = [0; 128];
    state[..5].copy_from_slice(&[1, 2, 1, 1, 1]);
    tag[2..5].copy_from_slice(&[8, 7, 9]);
    parent[2..5].copy_from_slice(&[3, 1, 1]);
    Tree { state, tag, parent }
}

// The store of the drawing: row 2 of every version, and the row that tag 9 has for itself. Then the same with an entry of
// another node, and with an entry twice.
fn drawn(rt: &impl Print) -> io::Result<()> {
    let size = Size {
        rows: 3,
        width: 4,
        places: 7,
    };
    let tree = drawn_tree();
    let records = View {
        size,
        tree: &tree,
        node: &[1, 0, 3, 4],
        row: &[2, 0, 2, 0],
    };
    let store = Store {
        records,
        places: b"\x00\x00\x00\x00\x10\x10\x10\x10    0000\x00\x00\x00\x00PPPP````",
    };
    store.show_count(rt)?;
    store.show_read(rt, 0, 2)?;
    store.show_read(rt, 7, 2)?;
    store.show_read(rt, 8, 2)?;
    store.show_read(rt, 9, 2)?;
    store.show_read(rt, 9, 0)?;
    let damaged = View {
        node: &[1, 0, 3, 3],
        ..records
    };
    store.with(damaged).show_count(rt)?;
    let twice = View {
        row: &[2, 0, 2, 2],
        ..damaged
    };
    store.with(twice).show_count(rt)
}

fn main(rt: HostRuntime) -> io::Result<()> {
    fresh(&rt)?;
    drawn(&rt)
}

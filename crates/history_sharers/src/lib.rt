// Who shares with whom: the place of each living version's row, found by a climb of the test's own, beside the marks of
// the full copy.
#![tactic(auto)]

use history_calling::Store;
use history_copies::Copies;
use trees::Tree;

const PLACES: usize = 4096;

// The mark of the rows that are read from each place, and the number of places that any is read from.
#[derive(Clone, Copy)]
struct Seen {
    marks: [Option<usize>; PLACES],
    places: usize,
}

impl Seen {
    // Notes that a row with a mark is read from a place. False if one with another mark is.
    fn note(&mut self, place: usize, mark: usize) -> bool {
        if place >= PLACES {
            return false;
        }
        match self.marks[place] {
            Some(old) => old == mark,
            None => {
                self.marks[place] = Some(mark);
                self.places = self.places.wrapping_add(1);
                true
            }
        }
    }
}

// The node with a living version's tag.
pub fn node_of(tree: &Tree, tag: u16) -> Option<usize> {
    tree.state
        .iter()
        .zip(&tree.tag)
        .position(|(state, t)| *state == 1 && *t == tag)
}

// A node's parent; 0 past the last.
pub fn parent_of(tree: &Tree, node: usize) -> usize {
    tree.parent
        .get(node)
        .map_or(0, |parent| usize::from(*parent))
}

// The entry of a node's own row.
fn entry_of(store: &Store, node: usize, row: usize) -> Option<usize> {
    store
        .node()
        .iter()
        .zip(store.row())
        .position(|(n, r)| usize::from(*n) == node && usize::from(*r) == row)
}

// The place of a node's row, going up at most 128 times.
fn place_of(store: &Store, first: usize, row: usize) -> Option<usize> {
    let mut node = first;
    for _ in 0..128 {
        if node == 0 {
            return Some(row);
        }
        if let Some(entry) = entry_of(store, node, row) {
            return Some(store.size.rows.wrapping_add(entry));
        }
        node = parent_of(&store.tree, node);
    }
    None
}

// The place of a living version's row.
fn place(store: &Store, tag: u16, row: usize) -> Option<usize> {
    place_of(store, node_of(&store.tree, tag)?, row)
}

// Do any two rows of living versions lie in one place exactly if they have the same mark? So they do if every place has
// one mark, and there are as many places as marks.
pub fn same(store: &Store, copies: &Copies) -> bool {
    let mut seen = Seen {
        marks: [None; PLACES],
        places: 0,
    };
    for version in copies.slots().iter().flatten() {
        for (r, row) in copies.rows(version).iter().enumerate() {
            let found = place(store, version.tag, r);
            if !found.is_some_and(|place| seen.note(place, row.mark)) {
                return false;
            }
        }
    }
    seen.places == copies.used()
}

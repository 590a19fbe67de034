// The records of a store, as values. What they mean and when they are sound stands in specs/.
#![tactic(auto)]

// 128 nodes: the state (0 empty, 1 alive, 2 ghost), the tag and the parent of each. Numbers side by side, as they lie in the bytes that C lends: a damaged
// one may have any value, and rule 2 judges it.
#[derive(Clone, Copy, PartialEq, Eq)]
pub struct Tree {
    pub state: [u8; 128],
    pub tag: [u16; 128],
    pub parent: [u8; 128],
}

// The table as it is lent: how many rows the store has, and the node and the row of each entry, two halves as they lie in the bytes that C lends.
#[derive(Clone, Copy)]
pub struct Entries<'a> {
    pub rows: usize,
    pub node: &'a [u8],
    pub row: &'a [u16],
}

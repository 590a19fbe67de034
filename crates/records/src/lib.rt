// The records of a store, as a call is lent them. What they are, and when they are sound, stands in specs/.
#![tactic(auto)]

ghost use Rattle.std.specs.Prelude.{◌≡◌};
ghost use Rattle.trees.specs.Trees.{entries_of};
ghost use Rattle.records.specs.Records.{table};
ghost use Rattle.records.specs.Lent.{lent, seen};

use measures::Size;
use trees::{Entries, Tree};

// Records that a call may change: the measures, the tree, and the node and the row of each entry of the table, where they are lent.
#[derive(Drop)]
pub struct Records<'a> {
    pub size: Size,
    pub tree: Tree,
    pub node: &'a mut [u8],
    pub row: &'a mut [u16],
}

// Records that a call only reads.
#[derive(Clone, Copy)]
pub struct View<'a> {
    pub size: Size,
    pub tree: &'a Tree,
    pub node: &'a [u8],
    pub row: &'a [u16],
}

impl Records<'_> {
    // The same records, only to be read.
    pub fn view(&self) -> View<'_>
        ensures { seen result ≡ lent self.now }
    {
        View {
            size: self.size,
            tree: &self.tree,
            node: self.node,
            row: self.row,
        }
    }
}

impl<'a> View<'a> {
    // The table's entries.
    pub fn entries(&self) -> Entries<'a>
        ensures { entries_of result ≡ table (seen self.now) }
    {
        Entries {
            rows: self.size.rows,
            node: self.node,
            row: self.row,
        }
    }
}

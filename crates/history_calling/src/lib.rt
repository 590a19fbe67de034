// A store in memory of the test's own, and the calls that are made on it.
#![tactic(auto)]

ghost use Rattle.std.specs.Prelude.{◌≤◌};

use answers::Refusal;
use counting::Counts;
use history_plans::{Border, Call, Outcome, Write};
use measures::{Row, Size};
use queries::Lent;
use records::{Records, View};
use trees::Tree;

// The most entries and bytes of places that there is room for.
const ENTRIES: usize = 1024;

const BYTES: usize = 4096;

// The measures, the tree, and what is lent: as many entries of the table and bytes of places as the measures call for.
#[derive(Clone, Copy, PartialEq, Eq)]
pub struct Store {
    pub size: Size,
    pub tree: Tree,
    node: [u8; ENTRIES],
    row: [u16; ENTRIES],
    places: [u8; BYTES],
}

// The memory, as it is lent.
impl Store {
    // Memory for a store, not zero at first. What does not fit, here or in the full copy, is not run.
    pub fn lent(size: Size) -> Option<Store> {
        let store = Store {
            size,
            tree: Tree {
                state: [0; 128],
                tag: [0; 128],
                parent: [0; 128],
            },
            node: [255; ENTRIES],
            row: [255; ENTRIES],
            places: [255; BYTES],
        };
        store.fits().then_some(store)
    }

    fn fits(&self) -> bool {
        self.size.rows <= 8
            && self.size.width <= 8
            && self.size.places.saturating_sub(self.size.rows) <= ENTRIES
            && self.size.places.saturating_mul(self.size.width) <= BYTES
    }

    fn entries(&self) -> usize
        ensures { result ≤ ENTRIES }
    {
        let own = self.size.places.saturating_sub(self.size.rows);
        own.min(ENTRIES)
    }

    fn bytes(&self) -> usize
        ensures { result ≤ BYTES }
    {
        let all = self.size.places.saturating_mul(self.size.width);
        all.min(BYTES)
    }

    // The node of each entry.
    pub fn node(&self) -> &[u8] {
        &self.node[..self.entries()]
    }

    // The row of each entry.
    pub fn row(&self) -> &[u16] {
        &self.row[..self.entries()]
    }

    fn places(&self) -> &[u8] {
        &self.places[..self.bytes()]
    }

    fn view(&self) -> View<'_> {
        View {
            size: self.size,
            tree: &self.tree,
            node: self.node(),
            row: self.row(),
        }
    }
}

// The calls. The parts of a store that is behind a reference cannot be lent one beside the other: so what a call may write is
// lent of a copy, which then takes the store's place.
impl Store {
    pub fn open(&mut self) -> Result<(), Refusal> {
        let mut store = *self;
        let entries = store.entries();
        let bytes = store.bytes();
        let opened = opening::open(
            store.size,
            &mut store.places[..bytes],
            &mut store.node[..entries],
            &mut store.row[..entries],
        );
        if let Ok(tree) = opened {
            store.tree = tree;
        }
        *self = store;
        opened.map(|_| ())
    }

    pub fn count(&self) -> Result<Counts, Refusal> {
        counting::count(&self.view())
    }

    pub fn read(&self, tag: u16, row: usize) -> Result<Lent<'_>, Refusal> {
        queries::read(&self.view(), self.places(), tag, Row(row))
    }

    fn snapshot(&mut self, source: u16, new: u16) -> Result<(), Refusal> {
        self.tree = snapshots::snapshot(&self.view(), source, new)?;
        Ok(())
    }

    fn write(&mut self, write: &Write) -> Result<(), Refusal> {
        let mut store = *self;
        let entries = store.entries();
        let bytes = store.bytes();
        let mut records = Records {
            size: store.size,
            tree: store.tree,
            node: &mut store.node[..entries],
            row: &mut store.row[..entries],
        };
        let written = writing::write(
            &mut records,
            &mut store.places[..bytes],
            write.tag,
            Row(write.row),
            write.bytes.as_slice(),
        );
        store.tree = records.tree;
        *self = store;
        written
    }

    fn border(&mut self, border: &Border) -> Outcome {
        let mut store = *self;
        let entries = store.entries();
        let bytes = store.bytes();
        let mut records = Records {
            size: store.size,
            tree: store.tree,
            node: &mut store.node[..entries],
            row: &mut store.row[..entries],
        };
        let bordered = bordering::border(
            &mut records,
            &mut store.places[..bytes],
            border.tag,
            border.rows(),
            border.bytes.as_slice(),
        );
        store.tree = records.tree;
        *self = store;
        Outcome {
            answer: bordered.refusal.map_or(Ok(()), Err),
            done: bordered.done,
        }
    }

    fn delete(&mut self, tag: u16) -> Result<(), Refusal> {
        let mut store = *self;
        let entries = store.entries();
        let mut records = Records {
            size: store.size,
            tree: store.tree,
            node: &mut store.node[..entries],
            row: &mut store.row[..entries],
        };
        let deleted = deleting::delete(&mut records, tag);
        store.tree = records.tree;
        *self = store;
        deleted
    }

    // Makes a call.
    pub fn make(&mut self, call: &Call) -> Outcome {
        let answer = match call {
            Call::Snapshot { source, new } => self.snapshot(*source, *new),
            Call::Write(write) => self.write(write),
            Call::Delete { tag } => self.delete(*tag),
            Call::Count => self.count().map(|_| ()),
            Call::Read { tag, row } => self.read(*tag, *row).map(|_| ()),
            Call::Border(border) => return self.border(border),
        };
        Outcome { answer, done: 0 }
    }
}

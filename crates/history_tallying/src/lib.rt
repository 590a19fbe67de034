// The tally of the test: what is counted of a configuration and of the whole run, where the run is, and the lines that
// are written of it.
#![tactic(auto)]

use answers::Refusal;
use history_comparing::{Difference, Tried};
use history_copies::{Copies, SLOTS, Standing};
use history_plans::{Border, Call, Plan};
use history_sharers::{node_of, parent_of};
use std::{fmt, io};
use trees::Tree;

// A number that is counted up.
#[derive(Clone, Copy, Default)]
struct Count(usize);

impl Count {
    fn add(&mut self) {
        self.0 = self.0.wrapping_add(1);
    }

    fn add_if(&mut self, yes: bool) {
        if yes {
            self.add();
        }
    }
}

impl fmt::Display for Count {
    fn fmt<W: fmt::Write>(&self, f: &mut fmt::Formatter<W>) -> fmt::Result {
        write!(f, "{}", self.0)
    }
}

// The calls of a configuration.
#[derive(Clone, Copy, Default)]
struct Calls {
    all: Count,
    refused: Count,
    snapshots: Count,
    deletes: Count,
    differences: Count,
}

impl fmt::Display for Calls {
    fn fmt<W: fmt::Write>(&self, f: &mut fmt::Formatter<W>) -> fmt::Result {
        write!(
            f,
            "calls {}, refused {}, snapshots {}, deletes {}, differences {}",
            self.all, self.refused, self.snapshots, self.deletes, self.differences
        )
    }
}

// Nodes deleted, by their children; and those that stood under a ghost.
#[derive(Clone, Copy, Default)]
struct Deleted {
    leaves: Count,
    single: Count,
    several: Count,
    under_ghost: Count,
}

impl fmt::Display for Deleted {
    fn fmt<W: fmt::Write>(&self, f: &mut fmt::Formatter<W>) -> fmt::Result {
        write!(
            f,
            "leaves {}, with one child {}, with several {}, under a ghost {}",
            self.leaves, self.single, self.several, self.under_ghost
        )
    }
}

// Equal bytes written: to a row of the version's own, a shared one, one in a full store; and to a shared one of a version with
// children.
#[derive(Clone, Copy, Default)]
struct Equal {
    own: Count,
    shared: Count,
    full: Count,
    above: Count,
}

impl fmt::Display for Equal {
    fn fmt<W: fmt::Write>(&self, f: &mut fmt::Formatter<W>) -> fmt::Result {
        write!(
            f,
            "own rows {}, shared rows {}, in a full store {}, above children {}",
            self.own, self.shared, self.full, self.above
        )
    }
}

// Borders: done, with no row, one or two, one row twice; ended behind the first row by 3, by 24; of 65 rows.
#[derive(Clone, Copy, Default)]
struct Borders {
    none: Count,
    one: Count,
    two: Count,
    twice: Count,
    bad_row: Count,
    full: Count,
    many: Count,
}

impl fmt::Display for Borders {
    fn fmt<W: fmt::Write>(&self, f: &mut fmt::Formatter<W>) -> fmt::Result {
        write!(
            f,
            "of no row {}, of one {}, of two {}, of a row twice {}, ended behind the first row by 3: {}, by 24: {}, of 65 rows {}",
            self.none, self.one, self.two, self.twice, self.bad_row, self.full, self.many
        )
    }
}

// Rows compared after the calls: of one version, of two, of more; among the last those of all 65; and those shared past a ghost.
#[derive(Clone, Copy, Default)]
struct Rows {
    own: Count,
    two: Count,
    more: Count,
    all: Count,
    past_ghost: Count,
}

impl fmt::Display for Rows {
    fn fmt<W: fmt::Write>(&self, f: &mut fmt::Formatter<W>) -> fmt::Result {
        write!(
            f,
            "own {}, of two {}, of more {}, of all 65 {}, past a ghost {}",
            self.own, self.two, self.more, self.all, self.past_ghost
        )
    }
}

// More than the number of any refusal.
const REFUSALS: usize = 26;

// The calls are those of one configuration; all else is counted of the whole run.
#[derive(Clone, Copy, Default)]
pub struct Tally {
    seed: usize,
    call: Count,
    calls: Calls,
    refusals: [bool; REFUSALS],
    deleted: Deleted,
    equal: Equal,
    borders: Borders,
    rows: Rows,
    differences: Count,
}

// How many children a version's node has.
fn children(tree: &Tree, tag: u16) -> usize {
    node_of(tree, tag).map_or(0, |node| nodes::children(tree, node))
}

// Is the parent of a version's node a ghost?
fn under_ghost(tree: &Tree, tag: u16) -> bool {
    node_of(tree, tag).is_some_and(|node| tree.state.get(parent_of(tree, node)) == Some(&2))
}

// What is counted.
impl Tally {
    // A configuration begins.
    pub fn clear(&mut self) {
        self.calls = Calls::default();
    }

    // A history begins.
    pub fn begin(&mut self, seed: usize) {
        self.seed = seed;
        self.call = Count::default();
    }

    // A delete: the shape of the node that it takes away.
    fn count_delete(&mut self, tree: &Tree, tag: u16) {
        self.calls.deletes.add();
        match children(tree, tag) {
            0 => self.deleted.leaves.add(),
            1 => self.deleted.single.add(),
            _ => self.deleted.several.add(),
        }
        self.deleted.under_ghost.add_if(under_ghost(tree, tag));
    }

    // A write of the bytes that were there.
    fn count_equal(&mut self, tree: &Tree, tag: u16, standing: Standing) {
        match standing {
            Standing::Own => self.equal.own.add(),
            Standing::Shared => self.equal.shared.add(),
            Standing::Full => self.equal.full.add(),
        }
        if standing != Standing::Own {
            self.equal.above.add_if(children(tree, tag) > 0);
        }
    }

    // A border that was done.
    fn count_border(&mut self, border: &Border) {
        match border.rows() {
            [] => self.borders.none.add(),
            [_] => self.borders.one.add(),
            [first, second, ..] => {
                self.borders.two.add();
                self.borders.twice.add_if(first == second);
            }
        }
    }

    // A call that was not refused, on the tree before it; and how a row stood whose bytes it wrote once more.
    fn count_done(&mut self, tree: &Tree, call: &Call, equal: Option<Standing>) {
        match call {
            Call::Snapshot { .. } => self.calls.snapshots.add(),
            Call::Write(write) => {
                if let Some(standing) = equal {
                    self.count_equal(tree, write.tag, standing);
                }
            }
            Call::Border(border) => self.count_border(border),
            Call::Delete { tag } => self.count_delete(tree, *tag),
            Call::Count | Call::Read { .. } => {}
        }
    }

    // A refused call; only a border may have done a row.
    fn count_refused(&mut self, refusal: Refusal, done: usize) {
        self.calls.refused.add();
        if let Some(seen) = self.refusals.get_mut(usize::from(refusal.number())) {
            *seen = true;
        }
        self.borders.many.add_if(refusal == Refusal::TooManyRows);
        if done == 1 {
            self.borders.bad_row.add_if(refusal == Refusal::BadRow);
            self.borders.full.add_if(refusal == Refusal::PlacesFull);
        }
    }

    // A call as it was tried, on the tree before it.
    pub fn count(&mut self, tree: &Tree, call: &Call, equal: Option<Standing>, tried: &Tried) {
        self.call.add();
        self.calls.all.add();
        match tried.outcome.answer {
            Ok(()) => self.count_done(tree, call, equal),
            Err(refusal) => self.count_refused(refusal, tried.outcome.done),
        }
    }

    // A row of a version, and how many share it: a version without children that stands under a ghost shares it past the ghost.
    fn count_row(&mut self, tree: &Tree, tag: u16, sharers: usize) {
        match sharers {
            0 | 1 => self.rows.own.add(),
            2 => self.rows.two.add(),
            _ => self.rows.more.add(),
        }
        self.rows.all.add_if(sharers == SLOTS);
        if sharers > 1 {
            let past = under_ghost(tree, tag) && children(tree, tag) == 0;
            self.rows.past_ghost.add_if(past);
        }
    }

    // Every row of every living version, on the tree after a call.
    pub fn count_rows(&mut self, tree: &Tree, copies: &Copies) {
        for version in copies.slots().iter().flatten() {
            for (r, row) in copies.rows(version).iter().enumerate() {
                self.count_row(tree, version.tag, copies.sharers(r, row.mark));
            }
        }
    }
}

// The lines that are written.
impl Tally {
    // Counts a call after which something differs; the first few are shown at once.
    pub fn differ(
        &mut self,
        rt: &impl Print,
        plan: &Plan,
        what: Option<Difference>,
    ) -> io::Result<()> {
        let Some(what) = what else {
            return Ok(());
        };
        self.calls.differences.add();
        self.differences.add();
        if self.differences.0 > 5 {
            return Ok(());
        }
        println!(rt;
            "difference in {what}: {plan}, seed {}, call {}",
            self.seed, self.call
        )
    }

    // A configuration.
    pub fn show_calls(&self, rt: &impl Print, plan: &Plan) -> io::Result<()> {
        println!(rt; "{plan}: seeds {}, {}", plan.seeds, self.calls)
    }

    // The number of every refusal that was given.
    fn show_refusals(&self, rt: &impl Print) -> io::Result<()> {
        print!(rt; "refusals seen:")?;
        for (number, seen) in self.refusals.iter().enumerate() {
            if *seen {
                print!(rt; " {number}")?;
            }
        }
        println!(rt; "")
    }

    // The whole run: the refusals, the nodes deleted, the equal bytes written, the borders, the rows, and the differences.
    pub fn show_end(&self, rt: &impl Print) -> io::Result<()> {
        self.show_refusals(rt)?;
        println!(rt; "deleted: {}", self.deleted)?;
        println!(rt; "equal bytes written: {}", self.equal)?;
        println!(rt; "borders: {}", self.borders)?;
        println!(rt; "rows compared after the calls: {}", self.rows)?;
        println!(rt; "differences {}", self.differences)
    }
}

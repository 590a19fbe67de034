// A call on both, the store and the full copy, and what differs afterwards: answers, counts, rows, sharing, and what a
// refusal leaves.
#![tactic(auto)]

use history_calling::Store;
use history_copies::Copies;
use history_plans::{Call, Outcome};
use std::fmt;

// What can differ. Where several things do, the first is given.
#[derive(Clone, Copy)]
pub enum Difference {
    Answer,
    Done,
    Left,
    Counts,
    Used,
    Snapshots,
    Reading,
    Bytes,
    Sharers,
    Sharing,
}

impl fmt::Display for Difference {
    fn fmt<W: fmt::Write>(&self, f: &mut fmt::Formatter<W>) -> fmt::Result {
        f.write_str(match self {
            Difference::Answer => "a call's answer",
            Difference::Done => "the rows done",
            Difference::Left => "what a refusal leaves",
            Difference::Counts => "count's answer",
            Difference::Used => "the places in use",
            Difference::Snapshots => "the snapshots alive",
            Difference::Reading => "read's answer",
            Difference::Bytes => "a row",
            Difference::Sharers => "how many share a row",
            Difference::Sharing => "who shares with whom",
        })
    }
}

// The store's outcome of a call, and what differs after it.
#[derive(Clone, Copy)]
pub struct Tried {
    pub outcome: Outcome,
    pub what: Option<Difference>,
}

fn unless(same: bool, what: Difference) -> Option<Difference> {
    (!same).then_some(what)
}

// Places in use and snapshots alive.
fn counts(store: &Store, copies: &Copies) -> Option<Difference> {
    let Ok(counted) = store.count() else {
        return Some(Difference::Counts);
    };
    unless(counted.used == copies.used(), Difference::Used).or(unless(
        counted.snapshots == copies.snapshots(),
        Difference::Snapshots,
    ))
}

// A row, read from both.
fn one_row(store: &Store, copies: &Copies, tag: u16, row: usize) -> Option<Difference> {
    match (store.read(tag, row), copies.read(tag, row)) {
        (Ok(lent), Ok(held)) => unless(lent.bytes == copies.bytes(&held), Difference::Bytes).or(
            unless(
                lent.sharers == copies.sharers(row, held.mark),
                Difference::Sharers,
            ),
        ),
        (Err(refusal), Err(expected)) => unless(refusal == expected, Difference::Reading),
        _ => Some(Difference::Reading),
    }
}

// Every row of every living version.
fn rows(store: &Store, copies: &Copies) -> Option<Difference> {
    for version in copies.slots().iter().flatten() {
        for row in 0..store.size.rows {
            let what = one_row(store, copies, version.tag, row);
            if what.is_some() {
                return what;
            }
        }
    }
    None
}

fn all(store: &Store, copies: &Copies) -> Option<Difference> {
    counts(store, copies).or(rows(store, copies)).or(unless(
        history_sharers::same(store, copies),
        Difference::Sharing,
    ))
}

// What a count or a read that was drawn hands out.
fn asked(store: &Store, copies: &Copies, call: &Call) -> Option<Difference> {
    match call {
        Call::Count => counts(store, copies),
        Call::Read { tag, row } => one_row(store, copies, *tag, *row),
        _ => None,
    }
}

// A fresh store, beside a fresh full copy.
pub fn open(store: &mut Store, copies: &Copies) -> Option<Difference> {
    let answer = store.open();
    unless(answer.is_ok(), Difference::Answer).or(all(store, copies))
}

// A call on both. A refusal with no row done leaves everything as it was.
pub fn make(store: &mut Store, copies: &mut Copies, call: &Call) -> Tried {
    let before = *store;
    let outcome = store.make(call);
    let expected = copies.make(call);
    let left = outcome.answer.is_ok() || outcome.done > 0 || *store == before;
    let what = unless(outcome.answer == expected.answer, Difference::Answer)
        .or(unless(outcome.done == expected.done, Difference::Done))
        .or(unless(left, Difference::Left))
        .or(asked(store, copies, call))
        .or(all(store, copies));
    Tried { outcome, what }
}

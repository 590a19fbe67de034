// The lines that the tour writes: what an opening, a count and a read of a store answer.
#![tactic(auto)]

use answers::{Refusal, answer_of};
use measures::Row;
use records::View;
use std::{fmt, io};
use trees::Tree;

// A store: its records and its places, only to be read.
#[derive(Clone, Copy)]
pub struct Store<'a> {
    pub records: View<'a>,
    pub places: &'a [u8],
}

// The bytes of a row, two digits each.
#[derive(Clone, Copy)]
struct Hex<'a>(&'a [u8]);

impl fmt::Display for Hex<'_> {
    fn fmt<W: fmt::Write>(&self, f: &mut fmt::Formatter<W>) -> fmt::Result {
        for byte in self.0 {
            write!(f, "{byte:02x}")?;
        }
        Ok(())
    }
}

pub fn show_open(rt: &impl Print, opened: &Result<Tree, Refusal>) -> io::Result<()> {
    println!(rt; "open: answer {}", answer_of(opened))
}

impl<'a> Store<'a> {
    // The same places, with other records.
    pub fn with(self, records: View<'a>) -> Store<'a> {
        Store { records, ..self }
    }

    pub fn show_count(&self, rt: &impl Print) -> io::Result<()> {
        let counted = counting::count(&self.records);
        let answer = answer_of(&counted);
        let (used, snapshots) = counted.map_or((0, 0), |c| (c.used, c.snapshots));
        println!(rt; "count: answer {answer}, places in use {used}, snapshots alive {snapshots}")
    }

    pub fn show_read(&self, rt: &impl Print, tag: u16, row: usize) -> io::Result<()> {
        let read = queries::read(&self.records, self.places, tag, Row(row));
        let answer = answer_of(&read);
        let bytes = Hex(queries::part(read, self.places));
        let sharers = read.map_or(0, |lent| lent.sharers);
        println!(rt; "read tag {tag} row {row}: answer {answer}, sharers {sharers}, bytes {bytes}")
    }
}

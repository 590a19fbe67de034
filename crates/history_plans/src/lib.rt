// What the test runs: the configurations, a call of a history as it is drawn, and what is answered to it. This and the
// crates above it up to `histories` are a test's: they promise only to be safe and to end.
#![tactic(auto)]

ghost use Rattle.std.specs.Prelude.{◌≤◌, length};

use answers::Refusal;
use measures::Size;
use std::fmt;

// The measures, how many tags are drawn from, the snapshot calls among 16, the seeds, and the calls for each seed.
#[derive(Clone, Copy)]
pub struct Plan {
    pub size: Size,
    pub tags: usize,
    pub share: usize,
    pub seeds: usize,
    pub calls: usize,
}

// The measures, by which the lines that the test writes name a configuration.
impl fmt::Display for Plan {
    fn fmt<W: fmt::Write>(&self, f: &mut fmt::Formatter<W>) -> fmt::Result {
        write!(
            f,
            "{} {} {}",
            self.size.rows, self.size.width, self.size.places
        )
    }
}

fn sized(rows: usize, width: usize, places: usize) -> Size {
    Size {
        rows,
        width,
        places,
    }
}

fn planned(size: Size, tags: usize, share: usize, seeds: usize, calls: usize) -> Plan {
    Plan {
        size,
        tags,
        share,
        seeds,
        calls,
    }
}

// The 12 configurations: as many places as rows, one more, the smallest store, one row, one byte, stores that fill up, one that
// never does, two with more tags than there can be snapshots, and two whose trees are deep, the last with rows that all 65 share.
pub fn plans() -> [Plan; 12] {
    [
        planned(sized(4, 8, 4), 10, 2, 20, 100),
        planned(sized(4, 8, 5), 10, 2, 20, 100),
        planned(sized(1, 1, 1), 10, 2, 20, 100),
        planned(sized(1, 4, 12), 24, 3, 10, 200),
        planned(sized(5, 1, 24), 16, 3, 10, 200),
        planned(sized(3, 2, 9), 16, 3, 10, 200),
        planned(sized(8, 8, 60), 24, 3, 10, 200),
        planned(sized(6, 5, 200), 30, 3, 10, 200),
        planned(sized(2, 3, 140), 90, 7, 10, 400),
        planned(sized(3, 4, 50), 90, 7, 10, 400),
        planned(sized(2, 2, 130), 90, 12, 10, 300),
        planned(sized(3, 2, 4), 90, 12, 4, 200),
    ]
}

// The bytes that a call lends: the first of 16, as many as the length says.
#[derive(Clone, Copy)]
pub struct Lent {
    pub bytes: [u8; 16],
    pub length: usize,
}

impl Lent {
    pub fn as_slice(&self) -> &[u8]
        ensures { length result.now ≤ 16 }
    {
        &self.bytes[..self.length.min(16)]
    }
}

// A row of a version, and the bytes to be written to it.
#[derive(Clone, Copy)]
pub struct Write {
    pub tag: u16,
    pub row: usize,
    pub bytes: Lent,
}

// The rows of a version that are the first of 65, as many as the count says, and the bytes to be written to them.
#[derive(Clone, Copy)]
pub struct Border {
    pub tag: u16,
    pub rows: [u16; 65],
    pub count: usize,
    pub bytes: Lent,
}

impl Border {
    pub fn rows(&self) -> &[u16]
        ensures { length result.now ≤ 65 }
    {
        &self.rows[..self.count.min(65)]
    }
}

#[derive(Clone, Copy)]
pub enum Call {
    Snapshot { source: u16, new: u16 },
    Write(Write),
    Delete { tag: u16 },
    Count,
    Read { tag: u16, row: usize },
    Border(Border),
}

// What is answered to a call, and how many rows a border did; other calls have none.
#[derive(Clone, Copy)]
pub struct Outcome {
    pub answer: Result<(), Refusal>,
    pub done: usize,
}

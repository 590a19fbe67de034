// The records as bytes: where each part lies is drawn in specs/Layout.antt.
#![tactic(auto)]

ghost use Rattle.std.specs.Prelude.{◌≡◌, ◌≤◌, length};
ghost use Rattle.basics.specs.Decide.{Decides};
ghost use Rattle.measures.specs.Measures.{Within};
ghost use Rattle.layout.specs.Layout.{table_at, size_at, entries, Fits, records_size};

use measures::Size;

// Where each part of the records begins, behind the measures.
pub const STATES_AT: usize = 6;

pub const PARENTS_AT: usize = STATES_AT + 128;

pub const TAGS_AT: usize = PARENTS_AT + 128;

pub const TABLE_AT: usize = TAGS_AT + 256;

// The measures that the bytes begin with.
pub fn size(records: &[u8]) -> Size
    requires { table_at ≤ length records.now }
    ensures { result ≡ size_at records.now }
{
    Size {
        rows: usize::from(laying::number(records, 0)),
        width: usize::from(laying::number(records, 2)),
        places: usize::from(laying::number(records, 4)),
    }
}

// How many bytes the records of a store have.
pub fn records_size(size: Size) -> usize
    requires { Within size }
    ensures { result ≡ records_size size }
{
    TABLE_AT + 3 * (size.places - size.rows)
}

// Are the measures within their limits, and the bytes as many as they say?
pub fn fits(records: &[u8]) -> bool
    ensures { Decides result (Fits records.now) }
{
    if records.len() < TABLE_AT {
        return false;
    }
    let size = size(records);
    size.within() && records.len() == records_size(size)
}

// How many entries the table has.
pub fn entries(records: &[u8]) -> usize
    requires { Fits records.now }
    ensures { (result ≡ entries (size_at records.now)) × (result ≤ 4096) }
{
    let size = size(records);
    size.places - size.rows
}

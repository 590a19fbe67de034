// The notes of a row: the table is gone through one time, and every node's own place is noted.
#![tactic(auto)]

ghost use Rattle.std.specs.Prelude.{◌≡◌, ◌+◌, ◌≤◌, ◌<◌, length};
ghost use Rattle.trees.specs.Trees.{table_of};
ghost use Rattle.notes.specs.Notes.{Halved, Noted, Noting, joined};

use measures::Row;

// Entry i is noted at node n, if that is a node and has no note yet.
fn join(notes: &mut [u16; 128], n: usize, rows: usize, i: usize)
    requires { rows + i < 4096 }
    ensures { notes.new ≡ joined rows i n notes.old }
{
    if n < 128 && notes[n] == 0 {
        notes[n] = (rows + i + 1) as u16;
    }
}

// The entries of a stretch are noted that are the row's.
fn note(
    notes: &mut [u16; 128],
    rows: usize,
    node: &[u8],
    row: &[u16],
    key: u16,
    from: usize,
    to: usize,
)
    requires { Noting (table_of rows node.now row.now) key notes.old from × (from ≤ to) × (to ≤ length node.now) × Halved rows node.now row.now }
    ensures { Noting (table_of rows node.now row.now) key notes.new to }
{
    for i in from..to {
        if row[i] == key {
            join(notes, usize::from(node[i]), rows, i);
        }
    }
}

// The notes of row r. A stretch of the table without the row is passed as a whole; no entry has a row past 65,535. The halves are lent one by one:
// of a slice in a struct it is not known that its numbers have 16 bits.
pub fn notes(rows: usize, node: &[u8], row: &[u16], r: Row) -> [u16; 128]
    requires { Halved rows node.now row.now }
    ensures { Noted (table_of rows node.now row.now) r.0 result }
{
    let mut notes = [0u16; 128];
    let Ok(key) = u16::try_from(r.0) else {
        return notes;
    };
    for k in 0..node.len().div_ceil(64) {
        let from = 64 * k;
        let to = node.len().min(from + 64);
        if scanning::among(&row[from..to], key) {
            note(&mut notes, rows, node, row, key, from, to);
        }
    }
    notes
}

// The full copy: a store that keeps every version whole, written without a look at the reference model. A row that is
// written with other bytes gets a new mark, so that rows with one mark are those that share.
#![tactic(auto)]

ghost use Rattle.std.specs.Prelude.{◌<◌, ◌≤◌, IfSome, length};

use answers::Refusal;
use history_plans::{Border, Call, Outcome};
use measures::Size;

// There are 65 slots, the first the origin's, for versions of up to 8 rows of up to 8 bytes.
pub const SLOTS: usize = 65;

pub const ROWS: usize = 8;

pub const WIDTH: usize = 8;

// As many rows as all slots have.
const ALL_ROWS: usize = 520;

#[derive(Clone, Copy)]
pub struct Row {
    pub mark: usize,
    bytes: [u8; WIDTH],
}

#[derive(Clone, Copy)]
pub struct Version {
    pub tag: u16,
    rows: [Row; ROWS],
}

// The living versions, each in its slot, and the mark that is given next.
#[derive(Clone, Copy)]
pub struct Copies {
    size: Size,
    slots: [Option<Version>; SLOTS],
    next: usize,
}

// How a living version's row stands before a write: its own, shared, or shared while every place is in use.
#[derive(Clone, Copy, PartialEq, Eq)]
pub enum Standing {
    Own,
    Shared,
    Full,
}

impl Version {
    fn has_mark(&self, row: usize, mark: usize) -> bool {
        self.rows.get(row).is_some_and(|r| r.mark == mark)
    }
}

// A fresh full copy, as it is read.
impl Copies {
    // The origin alone: its rows have the marks from 0 up, and its bytes are zero.
    pub fn open(size: Size) -> Copies {
        let mut rows = [Row {
            mark: 0,
            bytes: [0; WIDTH],
        }; ROWS];
        for (r, row) in rows.iter_mut().enumerate() {
            row.mark = r;
        }
        let mut slots = [None; SLOTS];
        slots[0] = Some(Version { tag: 0, rows });
        Copies {
            size,
            slots,
            next: size.rows,
        }
    }

    // Every version, or none, slot by slot.
    pub fn slots(&self) -> &[Option<Version>] {
        &self.slots
    }

    // A version's rows.
    pub fn rows<'a>(&self, version: &'a Version) -> &'a [Row]
        ensures { length result.now ≤ ROWS }
    {
        &version.rows[..self.size.rows.min(ROWS)]
    }

    // A row's bytes.
    pub fn bytes<'a>(&self, row: &'a Row) -> &'a [u8]
        ensures { length result.now ≤ WIDTH }
    {
        &row.bytes[..self.size.width.min(WIDTH)]
    }

    // The slot of the living version with a tag.
    fn slot_of(&self, tag: u16) -> Option<usize>
        ensures { IfSome result (λ slot. slot < SLOTS) }
    {
        self.slots
            .iter()
            .position(|slot| slot.is_some_and(|version| version.tag == tag))
    }

    // The living version with a tag.
    fn version(&self, tag: u16) -> Option<&Version> {
        self.slots
            .iter()
            .flatten()
            .find(|version| version.tag == tag)
    }

    // The tag of the first living version from a slot on; the origin's where there is none.
    pub fn living_tag(&self, slot: usize) -> u16 {
        self.slots
            .iter()
            .skip(slot)
            .flatten()
            .next()
            .map_or(0, |version| version.tag)
    }

    // The bytes of a row; the origin's where there is no such version.
    pub fn bytes_near(&self, tag: u16, row: usize) -> [u8; WIDTH] {
        self.version(tag)
            .or(self.version(0))
            .map_or([0; WIDTH], |version| version.rows[row % ROWS].bytes)
    }

    // How many snapshots are alive.
    pub fn snapshots(&self) -> usize
        ensures { result < SLOTS }
    {
        self.slots
            .iter()
            .skip(1)
            .filter(|slot| slot.is_some())
            .count()
    }

    // How many living versions have a mark at a row; the version that it was read of is one of them.
    pub fn sharers(&self, row: usize, mark: usize) -> usize
        ensures { result ≤ SLOTS }
    {
        self.slots
            .iter()
            .filter(|slot| slot.is_some_and(|version| version.has_mark(row, mark)))
            .count()
    }

    // How many different marks the living versions' rows have: each counts at the first row that has it.
    pub fn used(&self) -> usize
        ensures { result ≤ ALL_ROWS }
    {
        let mut seen = [0; ALL_ROWS];
        let mut used = 0;
        for version in self.slots.iter().flatten() {
            for row in self.rows(version) {
                let marks = &seen[..used];
                if used < ALL_ROWS && !marks.contains(&row.mark) {
                    seen[used] = row.mark;
                    used += 1;
                }
            }
        }
        used
    }

    fn standing(&self, row: usize, mark: usize) -> Standing {
        if self.sharers(row, mark) <= 1 {
            Standing::Own
        } else if self.used() < self.size.places {
            Standing::Shared
        } else {
            Standing::Full
        }
    }
}

// The calls, each with its refusals in their order.
impl Copies {
    // Refusals: 3, 21.
    pub fn read(&self, tag: u16, row: usize) -> Result<Row, Refusal> {
        if row >= self.size.rows {
            return Err(Refusal::BadRow);
        }
        let version = self.version(tag).ok_or(Refusal::UnknownTag)?;
        version.rows.get(row).copied().ok_or(Refusal::BadRow)
    }

    // The row that a write is to change. Refusals: 2, 3, 21.
    fn row_before(&self, tag: u16, row: usize, bytes: &[u8]) -> Result<Row, Refusal> {
        if bytes.len() != self.size.width {
            return Err(Refusal::BadLength);
        }
        self.read(tag, row)
    }

    // How a row stands to which a call writes the bytes that it has.
    pub fn equal(&self, call: &Call) -> Option<Standing> {
        let Call::Write(write) = call else {
            return None;
        };
        let bytes = write.bytes.as_slice();
        let row = self.row_before(write.tag, write.row, bytes).ok()?;
        row.bytes
            .starts_with(bytes)
            .then_some(self.standing(write.row, row.mark))
    }

    // Refusals: 2, 3, 21, 24.
    fn write(&mut self, tag: u16, row: usize, bytes: &[u8]) -> Result<(), Refusal> {
        let mut new = self.row_before(tag, row, bytes)?;
        if new.bytes.starts_with(bytes) {
            return Ok(());
        }
        if self.standing(row, new.mark) == Standing::Full {
            return Err(Refusal::PlacesFull);
        }
        for (old, byte) in new.bytes.iter_mut().zip(bytes) {
            *old = *byte;
        }
        new.mark = self.next;
        self.next = self.next.wrapping_add(1);
        self.set(tag, row, new);
        Ok(())
    }

    fn set(&mut self, tag: u16, row: usize, new: Row) {
        let version = self.slots.iter_mut().flatten().find(|v| v.tag == tag);
        if let Some(old) = version.and_then(|v| v.rows.get_mut(row)) {
            *old = new;
        }
    }

    // Refusals: 4, 21, 22, 23.
    fn snapshot(&mut self, source: u16, new: u16) -> Result<(), Refusal> {
        if new == 0 {
            return Err(Refusal::ZeroTag);
        }
        let mut version = *self.version(source).ok_or(Refusal::UnknownTag)?;
        if self.version(new).is_some() {
            return Err(Refusal::TagAlive);
        }
        let free = self.slots.iter().position(|slot| slot.is_none());
        let free = free.ok_or(Refusal::SnapshotsFull)?;
        version.tag = new;
        self.slots[free] = Some(version);
        Ok(())
    }

    // Refusals: 5, 21.
    fn delete(&mut self, tag: u16) -> Result<(), Refusal> {
        if tag == 0 {
            return Err(Refusal::OriginTag);
        }
        let slot = self.slot_of(tag).ok_or(Refusal::UnknownTag)?;
        self.slots[slot] = None;
        Ok(())
    }

    // Before any row of a border is written. Refusals: 25, 2, 21.
    fn border_begins(&self, border: &Border) -> Result<(), Refusal> {
        if border.count > 64 {
            return Err(Refusal::TooManyRows);
        }
        if border.bytes.length != border.count.wrapping_mul(self.size.width) {
            return Err(Refusal::BadLength);
        }
        self.version(border.tag)
            .map(|_| ())
            .ok_or(Refusal::UnknownTag)
    }

    // The rows of a border in their order, until one is refused.
    fn border(&mut self, border: &Border) -> Outcome {
        let begins = self.border_begins(border);
        if begins.is_err() {
            return Outcome {
                answer: begins,
                done: 0,
            };
        }
        let width = self.size.width.max(1);
        let rows = border.bytes.as_slice().chunks(width);
        for (done, (bytes, row)) in rows.zip(border.rows()).enumerate() {
            let answer = self.write(border.tag, usize::from(*row), bytes);
            if answer.is_err() {
                return Outcome { answer, done };
            }
        }
        Outcome {
            answer: Ok(()),
            done: border.count,
        }
    }

    // Makes a call, and answers it.
    pub fn make(&mut self, call: &Call) -> Outcome {
        let answer = match call {
            Call::Snapshot { source, new } => self.snapshot(*source, *new),
            Call::Write(write) => self.write(write.tag, write.row, write.bytes.as_slice()),
            Call::Delete { tag } => self.delete(*tag),
            Call::Count => Ok(()),
            Call::Read { tag, row } => self.read(*tag, *row).map(|_| ()),
            Call::Border(border) => return self.border(border),
        };
        Outcome { answer, done: 0 }
    }
}

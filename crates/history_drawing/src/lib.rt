// The dice, and the calls that are drawn with them.
#![tactic(auto)]

ghost use Rattle.std.specs.Prelude.{◌≢◌, ◌<◌};

use history_copies::{Copies, WIDTH};
use history_plans::{Border, Call, Lent, Plan, Write};

// Lehmer's generator.
#[derive(Clone, Copy)]
pub struct Dice {
    state: usize,
}

impl Dice {
    // The dice that a seed starts with, others for each number of places.
    pub fn seeded(seed: usize, places: usize) -> Dice {
        Dice {
            state: (seed % 65536) * 1009 + (places % 65536) * 7919 + 1,
        }
    }

    // A number below n, or 0: the state is multiplied by 48271, modulo the prime 2^31 - 1.
    fn draw(&mut self, n: usize) -> usize
        ensures { n ≢ 0 → result < n }
    {
        self.state = (self.state % 2147483647) * 48271 % 2147483647;
        if n == 0 { 0 } else { self.state % n }
    }

    // Comes true one time in n.
    fn one_in(&mut self, n: usize) -> bool {
        self.draw(n) == 0
    }

    fn byte(&mut self) -> u8 {
        self.draw(256) as u8
    }

    // Draws bytes; one time in five those that the version's row has.
    fn fill(&mut self, bytes: &mut [u8], copies: &Copies, tag: u16, row: usize) {
        if self.one_in(5) {
            let held = copies.bytes_near(tag, row);
            for (i, byte) in bytes.iter_mut().enumerate() {
                *byte = held[i % WIDTH];
            }
        } else {
            for byte in bytes {
                *byte = self.byte();
            }
        }
    }

    // A living version's tag three times in four; else any, two unknown ones among them.
    fn tag(&mut self, plan: &Plan, copies: &Copies) -> u16 {
        if self.one_in(4) {
            return tag_number(self.draw(plan.tags.saturating_add(2)));
        }
        copies.living_tag(self.draw(copies.snapshots() + 1))
    }

    // Where many snapshots are taken, they are mostly taken of the newest, so that the tree grows deep.
    fn source(&mut self, plan: &Plan, copies: &Copies) -> u16 {
        if plan.share > 8 && !self.one_in(8) {
            return newest_tag(copies);
        }
        self.tag(plan, copies)
    }

    // A row; now and then one past the end.
    fn row(&mut self, plan: &Plan) -> usize {
        if self.one_in(12) {
            return plan.size.rows;
        }
        self.draw(plan.size.rows)
    }

    // The right length; now and then another.
    fn length(&mut self, right: usize) -> usize {
        if self.one_in(12) {
            return self.draw(16);
        }
        right
    }

    // How many rows a border has: mostly two; 65 are too many.
    fn count(&mut self) -> usize {
        match self.draw(12) {
            0 => 0,
            1 => 1,
            2 => 65,
            _ => 2,
        }
    }

    // A snapshot; its new tag may be 0 or alive.
    fn snapshot(&mut self, plan: &Plan, copies: &Copies) -> Call {
        let source = self.source(plan, copies);
        let new = tag_number(self.draw(plan.tags));
        Call::Snapshot { source, new }
    }

    fn write(&mut self, plan: &Plan, copies: &Copies) -> Call {
        let tag = self.tag(plan, copies);
        let row = self.row(plan);
        let length = self.length(plan.size.width);
        let mut bytes = [0; 16];
        self.fill(&mut bytes, copies, tag, row);
        Call::Write(Write {
            tag,
            row,
            bytes: Lent { bytes, length },
        })
    }

    // A border; its two rows may be one, and each has bytes drawn as a write's. For 65 rows too few bytes are lent.
    fn border(&mut self, plan: &Plan, copies: &Copies) -> Call {
        let width = plan.size.width;
        let tag = self.tag(plan, copies);
        let first = self.row(plan);
        let second = self.row(plan);
        let count = self.count();
        let length = self.length(count.wrapping_mul(width) % 17);
        let mut bytes = [0; 16];
        self.fill(&mut bytes, copies, tag, first);
        self.fill(&mut bytes[width.min(16)..], copies, tag, second);
        let mut rows = [0; 65];
        rows[0] = row_number(first);
        rows[1] = row_number(second);
        Call::Border(Border {
            tag,
            rows,
            count,
            bytes: Lent { bytes, length },
        })
    }

    fn read(&mut self, plan: &Plan, copies: &Copies) -> Call {
        let tag = self.tag(plan, copies);
        let row = self.row(plan);
        Call::Read { tag, row }
    }

    // The next call of a history; a delete may be of the origin.
    pub fn call(&mut self, plan: &Plan, copies: &Copies) -> Call {
        if self.draw(16) < plan.share {
            return self.snapshot(plan, copies);
        }
        match self.draw(8) {
            4 => self.border(plan, copies),
            5 => Call::Count,
            6 => Call::Delete {
                tag: self.tag(plan, copies),
            },
            7 => self.read(plan, copies),
            _ => self.write(plan, copies),
        }
    }
}

// The k-th tag of those that are drawn: 0, and numbers that fill both bytes.
fn tag_number(k: usize) -> u16 {
    ((k % 65536) * 1009 % 65536) as u16
}

// A row's number in a border.
fn row_number(row: usize) -> u16 {
    (row % 65536) as u16
}

// The tag of the living version in the slot after all others, where no slot between is free; else a later one's, or the origin's.
fn newest_tag(copies: &Copies) -> u16 {
    copies.living_tag(copies.snapshots())
}

// A command's call that asks, with its line: what was counted or read, or a dash if it was refused.
#![tactic(auto)]

ghost use Rattle.std.specs.Prelude.{◌≡◌, List, ℕ};
ghost use Rattle.records.specs.Lent.{seen};
ghost use Rattle.laying.specs.Writing.{HasRoom};
ghost use Rattle.model.specs.Call.{read, count, one};
ghost use Rattle.progress.specs.Replying.{line_room, Replied};

use laying::Writer;
use measures::Row;
use records::View;

// A count, and its line.
pub fn count(view: &View, line: usize, text: &mut Writer<'_>)
    requires { HasRoom text.old 20 }
    ensures lent { text.new.bytes.ghost_name ≡ text.old.bytes.ghost_name }
    ensures answers { (places : List ℕ) → Replied (seen view.now) places (one count) line
        text.old.bytes.now text.old.end (seen view.now) places text.new.bytes.now text.new.end }
{
    match counting::count(view) {
        Ok(c) => text::count_line(text, line, c.used, c.snapshots),
        Err(unsound) => text::plain_line(text, line, usize::from(unsound.number())),
    }
}

// A read of a row by its number in the stream, and its line.
pub fn read(view: &View, places: &[u8], tag: u16, r: u16, line: usize, text: &mut Writer<'_>)
    requires { HasRoom text.old (line_room view.now.size.width) }
    ensures lent { text.new.bytes.ghost_name ≡ text.old.bytes.ghost_name }
    ensures answers { Replied (seen view.now) places.now (one (read tag r)) line
        text.old.bytes.now text.old.end (seen view.now) places.now text.new.bytes.now text.new.end }
{
    match queries::read(view, places, tag, Row(usize::from(r))) {
        Ok(lent) => text::row_line(text, line, lent.bytes, lent.sharers),
        Err(refusal) => text::plain_line(text, line, usize::from(refusal.number())),
    }
}

// A command's call that changes the store, with its line: its number, the answer and a dash.
#![tactic(auto)]

ghost use Rattle.std.specs.Prelude.{◌≡◌, List, ℕ, ◌+◌, ◌≤◌, length};
ghost use Rattle.answers.specs.Results.{answer_of, left_of};
ghost use Rattle.records.specs.Records.{records_of};
ghost use Rattle.records.specs.Lent.{lent, seen, SameLent};
ghost use Rattle.commands.specs.Format.{row_at};
ghost use Rattle.laying.specs.Laid.{Lays};
ghost use Rattle.laying.specs.Writing.{HasRoom};
ghost use Rattle.model.specs.Call.{snapshot, write, delete, one};
ghost use Rattle.progress.specs.Replying.{onward, Replied, progress_of, SameRun, HasLine, RunAnswers};
ghost use Rattle.text.specs.Text.{line, dash};

use answers::Refusal;
use laying::Writer;
use measures::Row;
use progress::Run;
use readers::Reader;
use records::{Records, View};
use trees::Tree;

// The line of a call, behind which the run goes on.
fn reply(run: &mut Run<'_, '_, '_>, answer: Result<(), Refusal>)
    requires { HasLine run.old 12 }
    ensures same { SameRun run.old run.new }
    ensures goes { progress_of run.new ≡ onward (progress_of run.old) run.old.records.now.tree run.new.text.now.end }
    ensures lays { Lays run.old.text.now.bytes.now run.old.text.now.end (line run.old.line (answer_of answer) dash)
        run.new.text.now.bytes.now run.new.text.now.end }
    ensures held { (run.new.records.now ≡ run.old.records.now) × (run.new.places.now ≡ run.old.places.now) }
{
    let number = usize::from(answers::answer_of(&answer));
    text::plain_line(run.text, run.line, number);
    run.goes_on();
}

// A snapshot, and its line. Handed out is the tree, if it is another one.
pub fn snapshot(
    view: &View,
    source: u16,
    tag: u16,
    line: usize,
    text: &mut Writer<'_>,
) -> Result<Tree, Refusal>
    requires { HasRoom text.old 12 }
    ensures lent { text.new.bytes.ghost_name ≡ text.old.bytes.ghost_name }
    ensures answers { (places : List ℕ) → Replied (seen view.now) places (one (snapshot source tag)) line
        text.old.bytes.now text.old.end
        (records_of view.now.size (left_of view.now.tree.now result) view.now.node.now view.now.row.now) places
        text.new.bytes.now text.new.end }
{
    let taken = snapshots::snapshot(view, source, tag);
    text::plain_line(text, line, usize::from(answers::answer_of(&taken)));
    taken
}

// A delete, and its line.
pub fn delete(records: &mut Records<'_>, tag: u16, line: usize, text: &mut Writer<'_>)
    requires { HasRoom text.old 12 }
    ensures same { SameLent records.old records.new }
    ensures out { text.new.bytes.ghost_name ≡ text.old.bytes.ghost_name }
    ensures answers { (places : List ℕ) → Replied (lent records.old) places (one (delete tag)) line
        text.old.bytes.now text.old.end (lent records.new) places text.new.bytes.now text.new.end }
{
    let deleted = deleting::delete(records, tag);
    text::plain_line(text, line, usize::from(answers::answer_of(&deleted)));
}

// A write of a row by its number in the stream, with the bytes that stand behind it, and its line.
pub fn write(run: &mut Run<'_, '_, '_>, reader: Reader<'_>, tag: u16, r: u16)
    requires { HasLine run.old 12 × ((reader.at + 5) + run.old.records.now.size.width ≤ length reader.stream.now) }
    ensures same { SameRun run.old run.new }
    ensures answers { RunAnswers run.old
        (one (write tag r (row_at run.old.records.now.size.width reader.entry.stream.now reader.entry.at))) run.new }
{
    let from = reader.at + 5;
    let width = run.records.size.width;
    let bytes = &reader.stream[from..from + width];
    let r = Row(usize::from(r));
    let written = writing::write(run.records, run.places, tag, r, bytes);
    reply(run, written);
}

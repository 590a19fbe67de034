// One turn of a run: what stands at a position of a stream, and its line.
#![tactic(auto)]

ghost use Rattle.std.specs.Prelude.{◌≡◌};
ghost use Rattle.records.specs.Lent.{lent};
ghost use Rattle.laying.specs.Writing.{HasRoom};
ghost use Rattle.model.specs.Call.{read, count, one};
ghost use Rattle.progress.specs.Replying.{line_room, Replied, SameRun, HasLine, RunAnswers};
ghost use Rattle.lines.specs.Turns.{RunReady, RunTurned};

use commands::{Command, Step};
use laying::Writer;
use progress::Run;
use readers::Reader;
use records::Records;

// A count and its line, behind which the run goes on.
pub fn count(run: &mut Run<'_, '_, '_>)
    requires { HasLine run.old 20 }
    ensures same { SameRun run.old run.new }
    ensures answers { RunAnswers run.old (one count) run.new }
{
    showing::count(&run.records.view(), run.line, run.text);
    run.goes_on();
}

// A read of a row by its number in the stream, and its line, behind which the run goes on.
pub fn read(run: &mut Run<'_, '_, '_>, tag: u16, r: u16)
    requires { HasLine run.old (line_room run.old.records.now.size.width) }
    ensures same { SameRun run.old run.new }
    ensures answers { RunAnswers run.old (one (read tag r)) run.new }
{
    let line = run.line;
    show(run.records, run.places, run.text, line, tag, r);
    run.goes_on();
}

// The line of a read. What a run lends of its places beside its records can only be lent by `&mut`.
fn show(
    records: &Records<'_>,
    places: &mut [u8],
    text: &mut Writer<'_>,
    line: usize,
    tag: u16,
    r: u16,
)
    requires { HasRoom text.old (line_room records.now.size.width) }
    ensures kept { places.new ≡ places.old }
    ensures out { text.new.bytes.ghost_name ≡ text.old.bytes.ghost_name }
    ensures shown { Replied (lent records.now) places.old (one (read tag r)) line
        text.old.bytes.now text.old.end (lent records.now) places.old text.new.bytes.now text.new.end }
{
    showing::read(&records.view(), places, tag, r, line, text);
}

// What stands at the reader's position, and its line. An unknown command, or one that is cut, is the last.
pub fn serve(run: &mut Run<'_, '_, '_>, step: Step, reader: Reader<'_>)
    requires { RunReady run.old step reader.stream.now reader.at }
    ensures same { SameRun run.old run.new }
    ensures turned { RunTurned run.old reader.entry.stream.now reader.entry.at run.new step.next }
{
    let found = step.command;
    if found.changes() {
        return applying::change(run, step, reader);
    }
    match found {
        Command::Read { tag, row: r } => read(run, tag, r),
        Command::Count => count(run),
        Command::Unknown => run.stop(step.number),
        Command::Cut => run.stop(step.number),
        Command::Over => run.ends(),
        Command::Snapshot { .. } => {}
        Command::Write { .. } => {}
        Command::Delete { .. } => {}
    }
}

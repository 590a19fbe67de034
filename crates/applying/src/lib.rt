// One turn of a run, where a command that can change the store stands. What a turn is stands in specs/Turns.antt.
#![tactic(auto)]

ghost use Rattle.std.specs.Prelude.{◌≡◌, true};
ghost use Rattle.commands.specs.Format.{changes};
ghost use Rattle.model.specs.Call.{snapshot, delete, one};
ghost use Rattle.progress.specs.Replying.{SameRun, HasLine, RunAnswers};
ghost use Rattle.lines.specs.Turns.{RunReady, RunTurned};

use commands::{Command, Step};
use progress::Run;
use readers::Reader;

// A snapshot and its line, behind which the run goes on.
pub fn snapshot(run: &mut Run<'_, '_, '_>, source: u16, tag: u16)
    requires { HasLine run.old 12 }
    ensures same { SameRun run.old run.new }
    ensures answers { RunAnswers run.old (one (snapshot source tag)) run.new }
{
    match changing::snapshot(&run.records.view(), source, tag, run.line, run.text) {
        Ok(tree) => {
            run.records.tree = tree;
            run.goes_on();
        }
        Err(_) => run.goes_on(),
    }
}

// A delete and its line, behind which the run goes on.
pub fn delete(run: &mut Run<'_, '_, '_>, tag: u16)
    requires { HasLine run.old 12 }
    ensures same { SameRun run.old run.new }
    ensures answers { RunAnswers run.old (one (delete tag)) run.new }
{
    changing::delete(run.records, tag, run.line, run.text);
    run.goes_on();
}

// A command that can change the store, and its line.
pub fn change(run: &mut Run<'_, '_, '_>, step: Step, reader: Reader<'_>)
    requires { RunReady run.old step reader.stream.now reader.at × (changes step.command ≡ true) }
    ensures same { SameRun run.old run.new }
    ensures turned { RunTurned run.old reader.entry.stream.now reader.entry.at run.new step.next }
{
    let found = step.command;
    match found {
        Command::Snapshot { source, tag } => snapshot(run, source, tag),
        Command::Write { tag, row: r } => changing::write(run, reader, tag, r),
        Command::Delete { tag } => delete(run, tag),
        Command::Read { .. } => {}
        Command::Count => {}
        Command::Unknown => {}
        Command::Cut => {}
        Command::Over => {}
    }
}

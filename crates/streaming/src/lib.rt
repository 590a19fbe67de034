// The loop over a stream of commands, from reader to reader.
#![tactic(auto)]

ghost use Rattle.progress.specs.Replying.{SameRun};
ghost use Rattle.lines.specs.Loop.{RunBegins, RunThrough};

use progress::Run;
use readers::Reader;

// Every command of the stream, and its line: from reader to reader.
pub fn lines(run: &mut Run<'_, '_, '_>, stream: &[u8], width: usize)
    requires { RunBegins width run.old stream.now }
    ensures same { SameRun run.old run.new }
    ensures through { RunThrough run.old stream.now run.new }
{
    let mut reader = Reader::new(stream);
    // A `while`: the run itself says when it is over.
    while run.going {
        let step = reader.command(width);
        serving::serve(run, step, reader);
        reader = reader.moved(step.next);
    }
}

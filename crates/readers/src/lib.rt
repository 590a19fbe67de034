// A reader holds a stream and the position of its next command. Its methods take it apart.
#![tactic(auto)]

ghost use Rattle.std.specs.Prelude.{◌≡◌, ◌≤◌};
ghost use Rattle.commands.specs.Format.{step_at};

use commands::Step;

// A stream, and the position of its next command.
#[derive(Clone, Copy)]
pub struct Reader<'a> {
    pub stream: &'a [u8],
    pub at: usize,
}

impl<'a> Reader<'a> {
    // The reader at a stream's first command.
    pub fn new(stream: &'a [u8]) -> Reader<'a>
        ensures { (result.stream ≡ stream.entry) × (result.at ≡ 0) }
    {
        Reader { stream, at: 0 }
    }

    // The reader at another position.
    pub fn moved(self, at: usize) -> Reader<'a>
        ensures { (result.stream ≡ self.entry.stream) × (result.at ≡ at) }
    {
        Reader { at, ..self }
    }

    // The reader's next command.
    pub fn command(self, width: usize) -> Step
        requires { width ≤ 1024 }
        ensures { result ≡ step_at width self.entry.stream.now self.entry.at }
    {
        decoding::next(self.stream, self.at, width)
    }
}

// Commands in a stream of bytes: a byte says the kind, and operands of two bytes follow, the high one first.
//     1 snapshot: source tag, new tag    2 read: tag, row    3 write: tag, row, the row's bytes    4 delete: tag    5 count
#![tactic(auto)]

ghost use Rattle.std.specs.Prelude.{◌≡◌, ◌≤◌};
ghost use Rattle.commands.specs.Format.{changes, size_of};

// What stands at a position. A write's bytes follow its two operands in the stream.
#[derive(Clone, Copy)]
pub enum Command {
    Over,
    Unknown,
    Cut,
    Snapshot { source: u16, tag: u16 },
    Read { tag: u16, row: u16 },
    Write { tag: u16, row: u16 },
    Delete { tag: u16 },
    Count,
}

// A command, the position behind it, and the number of the refusal with which the stream ends there, else 0.
// The number stands beside the command, from which it follows: the definition `stand` in specs/Format.antt has it so.
#[derive(Clone, Copy)]
pub struct Step {
    pub command: Command,
    pub next: usize,
    pub number: u8,
}

impl Command {
    // Is it a command whose call can change the store?
    pub fn changes(self) -> bool
        ensures { result ≡ changes self }
    {
        matches!(
            self,
            Command::Snapshot { .. } | Command::Write { .. } | Command::Delete { .. }
        )
    }
}

// How many bytes a command has, where a row has `width`; 0 if the kind is unknown. The kind is the stream's byte, which may have any value.
#[tactic(auto, unfolding(crate::specs::Format::size_of))]
pub fn size_of(width: usize, kind: u8) -> usize
    requires { width ≤ 1024 }
    ensures { result ≡ size_of width kind }
{
    match kind {
        1 | 2 => 5,
        3 => 5 + width,
        4 => 3,
        5 => 1,
        _ => 0,
    }
}

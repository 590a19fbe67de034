// What stands in a stream at a position.
#![tactic(auto)]

ghost use Rattle.std.specs.Prelude.{◌≡◌, ◌≤◌};
ghost use Rattle.basics.specs.Decide.{at};
ghost use Rattle.commands.specs.Format.{command_of, step_at, Reading};

use commands::{Command, Step};

// The command of a known kind that lies whole at p.
#[tactic(auto, using(commands::specs::Laws::two_operands, commands::specs::Laws::one_operand), unfolding(commands::specs::Format::command_of))]
fn command_of(stream: &[u8], p: usize, width: usize) -> Command
    requires { Reading width stream.now p }
    ensures { result ≡ command_of stream.now p (at stream.now p) }
{
    match stream[p] {
        1 => Command::Snapshot {
            source: laying::number(stream, p + 1),
            tag: laying::number(stream, p + 3),
        },
        2 => Command::Read {
            tag: laying::number(stream, p + 1),
            row: laying::number(stream, p + 3),
        },
        3 => Command::Write {
            tag: laying::number(stream, p + 1),
            row: laying::number(stream, p + 3),
        },
        4 => Command::Delete {
            tag: laying::number(stream, p + 1),
        },
        _ => Command::Count,
    }
}

// The command at p, and where the next one starts. An unknown kind goes before a stream that ends inside a command.
pub fn next(stream: &[u8], p: usize, width: usize) -> Step
    requires { width ≤ 1024 }
    ensures { result ≡ step_at width stream.now p }
{
    if stream.len() <= p {
        return Step {
            command: Command::Over,
            next: p,
            number: 0,
        };
    }
    let n = commands::size_of(width, stream[p]);
    if n == 0 {
        return Step {
            command: Command::Unknown,
            next: p,
            number: 6,
        };
    }
    if stream.len() - p < n {
        return Step {
            command: Command::Cut,
            next: p,
            number: 7,
        };
    }
    Step {
        command: command_of(stream, p, width),
        next: p + n,
        number: 0,
    }
}

// The program: a store of 4 rows of 8 bytes in 6 places takes the stream on standard input, and prints a line for each command.
#![tactic(auto)]

ghost use Rattle.std.specs.Prelude.{◌<◌, ◌≤◌, length, take, IfOk, IfSome, OnOk};
ghost use Rattle.std.specs.Io.KnownBytes.{Appends, Consumes, IsAtEnd};
ghost use Rattle.lines.specs.Printed.{printed};

use std::io;
use std::io::{Read, Write};

// Reads until the buffer is full, the input ends or a read fails. How many bytes were read is told by the last argument, since that holds of a read that fails, too.
fn read_full<R: Read>(from: &mut R, input: &mut [u8], count: &mut usize) -> io::Result<()>
    ensures within { count.new ≤ length input.new }
    ensures bytes { Consumes (R.remaining from.old) (R.remaining from.new) (take count.new input.new) }
    ensures end { IfOk result (λ _. count.new < length input.new → IsAtEnd (R.remaining from.new)) }
{
    let mut done = 0;
    *count = 0;
    // A `while`: how much each read gives is not known before, and `read_exact` says nothing of what an error leaves.
    while done < input.len() {
        let n = from.read(&mut input[done..])?;
        if n == 0 {
            return Ok(());
        }
        done += n;
        *count = done;
    }
    Ok(())
}

fn print_out<W: Write>(to: &mut W, stream: &[u8], out: &mut [u8]) -> io::Result<()>
    requires { 147456 ≤ length out.old }
    ensures { OnOk result (Appends (W.contents to.old) (W.contents to.new) (printed stream.now)) }
{
    let end = printing::print(stream, out);
    to.write_all(&out[..end])
}

// Answers all that is left to read, or what was read before a read failed. Of a stream of over 4,096 bytes no more is read than shows that it is too long.
fn run<R: Read, W: Write>(from: &mut R, to: &mut W) -> io::Result<()>
    ensures { OnOk result (IfSome (R.remaining from.old) (λ stream.
        Appends (W.contents to.old) (W.contents to.new) (printed stream))) }
{
    let mut input = [0u8; 4097];
    let mut out = [0u8; 147456];
    let mut n = 0;
    let read = read_full(from, &mut input, &mut n);
    print_out(to, &input[..n], &mut out)?;
    read
}

// Input that cannot be read counts as ended, and output that cannot be written is lost.
fn main(rt: HostRuntime) {
    match run(&mut rt.reader(), &mut io::writer(&rt)) {
        Ok(()) | Err(_) => {}
    }
}

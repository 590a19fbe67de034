// What the program prints: a store of 4 rows of 8 bytes in 6 places takes a stream, and lays a line for each command.
#![tactic(auto)]

ghost use Rattle.std.specs.Prelude.{◌≤◌, length};
ghost use Rattle.laying.specs.Laid.{Lays};
ghost use Rattle.lines.specs.Printed.{printed, served};

use answers::Refusal;
use laying::Writer;
use measures::Size;
use records::Records;

// What is printed for a stream. A stream of over 4,096 bytes is refused as a whole.
pub fn print(stream: &[u8], out: &mut [u8]) -> usize
    requires { 147456 ≤ length out.old }
    ensures { Lays out.old 0 (printed stream.now) out.new result }
{
    if stream.len() > 4096 {
        let mut text = Writer { bytes: out, end: 0 };
        text::plain_line(&mut text, 0, usize::from(Refusal::LongStream.number()));
        return text.end;
    }
    serve(stream, out)
}

// Opens a store, and runs the stream on it.
fn serve(stream: &[u8], out: &mut [u8]) -> usize
    requires { (length stream.now ≤ 4096) × (147456 ≤ length out.old) }
    ensures { Lays out.old 0 (served stream.now) out.new result }
{
    let size = Size {
        rows: 4,
        width: 8,
        places: 6,
    };
    let mut places = [0u8; 48];
    let mut node = [0u8; 2];
    let mut row = [0u16; 2];
    let tree = opening::open(size, &mut places, &mut node, &mut row).unwrap();
    let mut records = Records {
        size,
        tree,
        node: &mut node,
        row: &mut row,
    };
    match running::run(&mut records, &mut places, stream, out) {
        Ok(end) => end,
        Err(_) => 0,
    }
}

// Runs a whole stream of commands on a store, and lays a line of text for each.
#![tactic(auto)]

ghost use Rattle.std.specs.Prelude.{◌≡◌, ◌*◌, ◌≤◌, length};
ghost use Rattle.answers.specs.Results.{answer_of};
ghost use Rattle.records.specs.Lent.{lent, SameLent};
ghost use Rattle.records.specs.Sound.{Sound};
ghost use Rattle.progress.specs.Replying.{line_room};
ghost use Rattle.running.specs.Ran.{end_of};
ghost use Rattle.lines.specs.Streams.{StreamEnds};

use answers::Refusal;
use laying::Writer;
use progress::Run;
use records::Records;

// The bytes that the lines of n commands take at most, where a row has `width`.
fn room(width: usize, n: usize) -> usize
    requires { (width ≤ 1024) × (n ≤ 4096) }
    ensures { result ≡ line_room width * n }
{
    (20 + 2 * width) * n
}

// A stream that has passed every test, and the text from its start.
fn lines(records: &mut Records<'_>, places: &mut [u8], stream: &[u8], text: &mut Writer<'_>)
    requires sound { Sound (lent records.old) × (length places.old ≡ records.old.size.places * records.old.size.width) }
    requires few { length stream.now ≤ 4096 }
    requires room { (text.old.end ≡ 0) × (line_room records.old.size.width * length stream.now ≤ length text.old.bytes.now) }
    ensures same { SameLent records.old records.new }
    ensures out { text.new.bytes.ghost_name ≡ text.old.bytes.ghost_name }
    ensures ends { StreamEnds (lent records.old) places.old stream.now text.old.bytes.now 0
        (lent records.new) places.new text.new.bytes.now text.new.end }
{
    let width = records.size.width;
    let mut run = Run {
        records,
        places,
        text,
        line: 1,
        going: true,
    };
    streaming::lines(&mut run, stream, width);
}

// How many bytes of text there are. Refusals: 20, 2 the places, 8, 2 the output. It takes 20 bytes and two for each of a row, for each byte of the
// stream. Nothing is changed by a refusal.
pub fn run(
    records: &mut Records<'_>,
    places: &mut [u8],
    stream: &[u8],
    out: &mut [u8],
) -> Result<usize, Refusal>
    ensures same { SameLent records.old records.new }
    ensures ends { StreamEnds (lent records.old) places.old stream.now out.old
        (answer_of result) (lent records.new) places.new out.new (end_of result) }
{
    if !soundness::sound(&records.view()) {
        return Err(Refusal::Unsound);
    }
    let size = records.size;
    if places.len() != size.places * size.width {
        return Err(Refusal::BadLength);
    }
    if stream.len() > 4096 {
        return Err(Refusal::LongStream);
    }
    if out.len() < room(size.width, stream.len()) {
        return Err(Refusal::BadLength);
    }
    let mut text = Writer { bytes: out, end: 0 };
    lines(records, places, stream, &mut text);
    Ok(text.end)
}

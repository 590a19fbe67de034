// Lines of text, laid one behind the other.
#![tactic(auto)]

ghost use Rattle.std.specs.Prelude.{◌+◌, ◌*◌, length};
ghost use Rattle.text.specs.Text.{head, line, dash, pair_text, row_text};
ghost use Rattle.laying.specs.Writing.{HasRoom, Adds};

use laying::Writer;

// What a line begins with: its own number and the answer's.
#[tactic(auto, using(digits::specs::Laws::decimal_most))]
fn head(out: &mut Writer<'_>, k: usize, n: usize)
    requires { HasRoom out.old 10 }
    ensures { Adds out.old (head k n) out.new }
{
    digits::decimal(out, k);
    out.put(b' ');
    digits::decimal(out, n);
    out.put(b' ');
}

// Two numbers.
#[tactic(auto, using(digits::specs::Laws::decimal_most))]
fn pair(out: &mut Writer<'_>, used: usize, snapshots: usize)
    requires { HasRoom out.old 9 }
    ensures { Adds out.old (pair_text used snapshots) out.new }
{
    digits::decimal(out, used);
    out.put(b' ');
    digits::decimal(out, snapshots);
}

// A row's bytes and how many share it.
#[tactic(auto, using(digits::specs::Laws::hex_size))]
fn row(out: &mut Writer<'_>, bytes: &[u8], sharers: usize)
    requires { HasRoom out.old (5 + 2 * length bytes.now) }
    ensures { Adds out.old (row_text bytes.now sharers) out.new }
{
    digits::hex(out, bytes);
    out.put(b' ');
    digits::decimal(out, sharers);
}

// The line of an answer that shows nothing.
#[tactic(auto, using(crate::specs::Laws::head_most))]
pub fn plain_line(out: &mut Writer<'_>, k: usize, n: usize)
    requires { HasRoom out.old 12 }
    ensures { Adds out.old (line k n dash) out.new }
{
    head(out, k, n);
    out.put(b'-');
    out.put(b'\n');
}

// The line of a row.
#[tactic(auto, using(crate::specs::Laws::head_most, crate::specs::Laws::row_most))]
pub fn row_line(out: &mut Writer<'_>, k: usize, bytes: &[u8], sharers: usize)
    requires { HasRoom out.old (16 + 2 * length bytes.now) }
    ensures { Adds out.old (line k 0 (row_text bytes.now sharers)) out.new }
{
    head(out, k, 0);
    row(out, bytes, sharers);
    out.put(b'\n');
}

// The line of two counts.
#[tactic(auto, using(crate::specs::Laws::head_most, crate::specs::Laws::pair_most))]
pub fn count_line(out: &mut Writer<'_>, k: usize, used: usize, snapshots: usize)
    requires { HasRoom out.old 20 }
    ensures { Adds out.old (line k 0 (pair_text used snapshots)) out.new }
{
    head(out, k, 0);
    pair(out, used, snapshots);
    out.put(b'\n');
}

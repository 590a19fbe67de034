// Numbers in base ten and bytes in base sixteen, laid as text.
#![tactic(auto)]

ghost use Rattle.std.specs.Prelude.{◌≡◌, ◌*◌, ◌<◌, length};
ghost use Rattle.laying.specs.Writing.{HasRoom, Adds};
ghost use Rattle.digits.specs.Digits.{digit, place, decimal, hex};

use laying::Writer;

// The code of a digit below 16.
fn digit(d: u8) -> u8
    requires { d < 16 }
    ensures { result ≡ digit d }
{
    if d < 10 { b'0' + d } else { b'a' + (d - 10) }
}

// The digit of n that stands for p, if n has it.
fn place(out: &mut Writer<'_>, n: usize, p: usize)
    requires { HasRoom out.old 1 × (0 < p) }
    ensures { Adds out.old (place p n) out.new }
{
    if n >= p {
        out.put(digit((n / p % 10) as u8));
    }
}

// A number below 10,000.
#[tactic(auto, using(crate::specs::Laws::place_most))]
pub fn decimal(out: &mut Writer<'_>, n: usize)
    requires { HasRoom out.old 4 }
    ensures { Adds out.old (decimal n) out.new }
{
    place(out, n, 1000);
    place(out, n, 100);
    place(out, n, 10);
    out.put(digit((n % 10) as u8));
}

// Two digits for each byte.
pub fn hex(out: &mut Writer<'_>, bytes: &[u8])
    requires { HasRoom out.old (2 * length bytes.now) }
    ensures { Adds out.old (hex bytes.now) out.new }
{
    for byte in bytes {
        out.two(digit(byte / 16), digit(byte % 16));
    }
}

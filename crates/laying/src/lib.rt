// Bytes laid into lent ones, each behind the last, and 16-bit numbers as two bytes, the high one first.
#![tactic(auto)]

ghost use Rattle.std.specs.Prelude.{◌≡◌, [], ◌∷◌, ◌+◌, ◌*◌, ◌≤◌, ◌<◌, length, replicate};
ghost use Rattle.laying.specs.Laid.{pairs, numbers, pair_at};
ghost use Rattle.laying.specs.Writing.{HasRoom, Adds};
ghost use Rattle.laying.specs.Laws.{Loading, Same, Stops};

// Lent bytes, and the position behind what was laid in them.
#[derive(Drop)]
pub struct Writer<'a> {
    pub bytes: &'a mut [u8],
    pub end: usize,
}

impl Writer<'_> {
    pub fn put(&mut self, byte: u8)
        requires { HasRoom self.old 1 }
        ensures { Adds self.old (byte ∷ []) self.new }
    {
        let at = self.end;
        self.bytes[at] = byte;
        self.end = at + 1;
    }

    // Two bytes.
    pub fn two(&mut self, a: u8, b: u8)
        requires { HasRoom self.old 2 }
        ensures { Adds self.old (a ∷ b ∷ []) self.new }
    {
        self.put(a);
        self.put(b);
    }

    // Bytes as they are.
    pub fn lay(&mut self, bytes: &[u8])
        requires { HasRoom self.old (length bytes.now) }
        ensures { Adds self.old bytes.now self.new }
    {
        let at = self.end;
        let to = at + bytes.len();
        self.bytes[at..to].copy_from_slice(bytes);
        self.end = to;
    }

    pub fn lay_numbers(&mut self, xs: &[u16])
        requires { HasRoom self.old (2 * length xs.now) }
        ensures { Adds self.old (pairs xs.now) self.new }
    {
        for x in xs {
            let [high, low] = x.to_be_bytes();
            self.two(high, low);
        }
    }
}

// The number that begins at p. Its two bytes are read from a part of their own, so that the compiler reads them at once.
pub fn number(bytes: &[u8], p: usize) -> u16
    requires { p + 1 < length bytes.now }
    ensures { result ≡ pair_at bytes.now p }
{
    let pair = &bytes[p..p + 2];
    u16::from_be_bytes([pair[0], pair[1]])
}

// The numbers from one position to another, those before being loaded.
fn load_stretch(bytes: &[u8], to: &mut [u16], from: usize, end: usize)
    requires { (from ≤ end) × (end ≤ length to.old) × Loading bytes.now to.old from }
    ensures { Loading bytes.now to.new end × Same to.old to.new end }
{
    for i in from..end {
        to[i] = number(bytes, 2 * i);
    }
}

// Every number of the bytes.
pub fn load_numbers(bytes: &[u8], to: &mut [u16])
    requires { length bytes.now ≡ 2 * length to.old }
    ensures { to.new ≡ numbers bytes.now }
{
    let end = to.len();
    load_stretch(bytes, to, 0, end);
}

// Up to where numbers are not 0: few trees have one past the first 16, and that is soon told.
fn few_to(bytes: &[u8]) -> usize
    requires { length bytes.now ≡ 256 }
    ensures { Stops bytes.now result }
{
    if scanning::zero_part(bytes, 32, 256) {
        16
    } else {
        128
    }
}

// Every number of the bytes, of which most are 0, as those are that are there: stretches of 16 numbers that are 0 are passed as a whole.
pub fn load_few(bytes: &[u8], to: &mut [u16])
    requires { (length bytes.now ≡ 256) × (length to.old ≡ 128) × Same (replicate 128 0) to.old 0 }
    ensures { to.new ≡ numbers bytes.now }
{
    for j in 0..few_to(bytes) / 16 {
        let n = 16 * j;
        if !scanning::zero_part(bytes, 2 * n, 2 * n + 32) {
            load_stretch(bytes, to, n, n + 16);
        }
    }
}

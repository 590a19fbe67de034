// A set of numbers as bits, eight to a byte.
#![tactic(auto)]

ghost use Rattle.std.specs.Prelude.{◌≡◌, false, ◌*◌, ◌<◌, length};
ghost use Rattle.bits.specs.Bits.{has, joined};

// Is number k in the set?
pub fn has(bits: &[u8], k: usize) -> bool
    requires { k < 8 * length bits.now }
    ensures { result ≡ has bits.now k }
{
    (bits[k / 8] >> (k % 8)) % 2 == 1
}

// Number k joins the set.
pub fn join(bits: &mut [u8], k: usize)
    requires { (k < 8 * length bits.old) × (has bits.old k ≡ false) }
    ensures { bits.new ≡ joined bits.old k }
{
    bits[k / 8] += 1 << (k % 8);
}

// A row as bits: bit 0 is the highest of byte 0.
#![tactic(auto)]

ghost use Rattle.std.specs.Prelude.{◌≡◌, ◌*◌, ◌<◌, length};
ghost use Rattle.rowbits.specs.Bits.{bit_of, put_bit};

// Bit n of a row, 0 or 1.
pub fn bit(row: &[u8], n: usize) -> u8
    requires { n < 8 * length row.now }
    ensures { result ≡ bit_of row.now n }
{
    (row[n / 8] >> (7 - n % 8)) % 2
}

// Bit n of a row, which is 0, becomes b.
pub fn put(row: &mut [u8], n: usize, b: u8)
    requires { (n < 8 * length row.old) × (b < 2) × (bit_of row.old n ≡ 0) }
    ensures { row.new ≡ put_bit row.old n b }
{
    row[n / 8] += b << (7 - n % 8);
}

// A row turned back from cable order: each hook gets the bit of its position, by the table.
#![tactic(auto)]

ghost use Rattle.std.specs.Prelude.{◌≡◌, ◌+◌, ◌*◌, ◌<◌, length, replicate};
ghost use Rattle.hooks.specs.Order.{Ordered};
ghost use Rattle.cables.specs.Cables.{from_cable};
ghost use Rattle.spreading.specs.Spreading.{spread_to};

// The bits of byte j go to the hooks of its eight positions. In a loop of its own, which the compiler unrolls: over all positions in one it does not.
fn spread_byte(row: &[u8], order: &[u16], j: usize, out: &mut [u8])
    requires { (length row.now ≡ 128) × Ordered order.now × (j < 128) × (out.old ≡ spread_to (8 * j) row.now) }
    ensures { out.new ≡ spread_to (8 * j + 8) row.now }
{
    for k in 0..8 {
        let n = 8 * j + k;
        let hook = hooks::hook(order, n);
        let bit = rowbits::bit(row, n);
        rowbits::put(out, hook, bit);
    }
}

// The bit of each position goes to its hook, in an output that is all 0.
fn spread_bits(row: &[u8], order: &[u16], out: &mut [u8])
    requires { (length row.now ≡ 128) × Ordered order.now × (out.old ≡ replicate 128 0) }
    ensures { out.new ≡ from_cable row.now }
{
    for j in 0..128 {
        spread_byte(row, order, j, out);
    }
}

// The whole row, hook 0 first.
pub fn spread(row: &[u8], order: &[u16], out: &mut [u8])
    requires { (length row.now ≡ 128) × Ordered order.now × (length out.old ≡ 128) }
    ensures { out.new ≡ from_cable row.now }
{
    out.fill(0);
    spread_bits(row, order, out);
}

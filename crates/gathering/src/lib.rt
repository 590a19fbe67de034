// A row turned to cable order: each position gets the bit of its hook, by the table.
#![tactic(auto)]

ghost use Rattle.std.specs.Prelude.{◌≡◌, ◌<◌, length};
ghost use Rattle.basics.specs.Decide.{at};
ghost use Rattle.hooks.specs.Order.{Ordered};
ghost use Rattle.cables.specs.Cables.{to_cable};

// Byte j of the row in cable order: the bits of eight hooks.
fn gathered(row: &[u8], order: &[u16], j: usize) -> u8
    requires { (length row.now ≡ 128) × Ordered order.now × (j < 128) }
    ensures { result ≡ at (to_cable row.now) j }
{
    let mut byte = 0;
    for k in 0..8 {
        let hook = hooks::hook(order, 8 * j + k);
        byte = byte * 2 + rowbits::bit(row, hook);
    }
    byte
}

// The whole row in cable order.
pub fn gather(row: &[u8], order: &[u16], out: &mut [u8])
    requires { (length row.now ≡ 128) × Ordered order.now × (length out.old ≡ 128) }
    ensures { out.new ≡ to_cable row.now }
{
    for (j, byte) in out.iter_mut().enumerate() {
        *byte = gathered(row, order, j);
    }
}

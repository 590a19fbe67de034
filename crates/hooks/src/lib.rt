// The order of the hooks on the cable, as a table.
#![tactic(auto)]

ghost use Rattle.std.specs.Prelude.{◌≡◌, ◌<◌};
ghost use Rattle.hooks.specs.Order.{hook_at, Ordered};

mod table;

// The table: at each position the hook that it carries.
pub fn order() -> [u16; 1024]
    ensures { Ordered result }
{
    table::ORDER
}

// The hook of a position, by the table.
pub fn hook(order: &[u16], n: usize) -> usize
    requires { Ordered order.now × (n < 1024) }
    ensures { (result ≡ hook_at n) × (result < 1024) }
{
    usize::from(order[n])
}

// Is a number among others, and are bytes all 0?
#![tactic(auto)]

ghost use Rattle.std.specs.Prelude.{◌≤◌, length};
ghost use Rattle.basics.specs.Decide.{Decides};
ghost use Rattle.faults.specs.Faults.{Below};
ghost use Rattle.scanning.specs.Among.{Among};
ghost use Rattle.scanning.specs.Zero.{Zero, ZeroFrom};

// All of them are looked at, and none is left early: so the compiler takes many at once.
pub fn among(xs: &[u16], x: u16) -> bool
    ensures { Decides result (Among xs.now x) }
{
    let mut seen = false;
    for y in xs {
        if *y == x {
            seen = true;
        }
    }
    seen
}

// Are bytes all 0? The greatest of them is found, and none is left early: so the compiler takes many at once.
pub fn zero(bytes: &[u8]) -> bool
    ensures { Decides result (Below (Zero bytes.now) (length bytes.now)) }
{
    let mut most: u8 = 0;
    for byte in bytes {
        if *byte > most {
            most = *byte;
        }
    }
    most == 0
}

// Are the bytes of a part all 0?
pub fn zero_part(bytes: &[u8], from: usize, to: usize) -> bool
    requires { (from ≤ to) × (to ≤ length bytes.now) }
    ensures { Decides result (ZeroFrom bytes.now from to) }
{
    zero(&bytes[from..to])
}

// The nodes in use, side by side, so that the rules of the tree go through these alone.
#![tactic(auto)]

ghost use Rattle.std.specs.Prelude.{◌≡◌, ◌≢◌, ℕ, ◌+◌, ◌≤◌, ◌<◌, length, take};
ghost use Rattle.basics.specs.Decide.{Decides, at};
ghost use Rattle.scanning.specs.Zero.{ZeroFrom};
ghost use Rattle.listing.specs.Listed.{Listed, Listing, Ends, all_prop};

use trees::Tree;

// Is none of 16 nodes from node n on in use?
pub fn idle_from(state: &[u8], n: usize) -> bool
    requires { (length state.now ≡ 128) × (n + 16 ≤ 128) }
    ensures { Decides result (ZeroFrom state.now n (n + 16)) }
{
    scanning::zero_part(state, n, n + 16)
}

// Up to where nodes are in use: few trees have one past the first 16, and that is soon told.
fn busy_to(state: &[u8]) -> usize
    requires { length state.now ≡ 128 }
    ensures { Ends state.now result }
{
    if scanning::zero_part(state, 16, 128) {
        16
    } else {
        128
    }
}

// The nodes in use from one node to another join the list, which has k already.
fn enlist(state: &[u8], out: &mut [u8], k: usize, from: usize, to: usize) -> usize
    requires { (length state.now ≡ 128) × (from ≤ to) × (to ≤ 128) × Listing state.now out.old k from }
    ensures { Listing state.now out.new result to }
{
    let mut m = k;
    for n in from..to {
        if n != 0 && state[n] != 0 {
            out[m] = n as u8;
            m += 1;
        }
    }
    m
}

// All nodes in use but node 0. Stretches of 16 that have none are passed as a whole.
pub fn list(state: &[u8], out: &mut [u8]) -> usize
    requires { (length state.now ≡ 128) × (length out.old ≡ 128) }
    ensures { (result ≤ 128) × Listed state.now (take result out.new) × (length out.new ≡ 128) }
{
    let mut k = 0;
    for j in 0..busy_to(state) / 16 {
        let n = 16 * j;
        if !idle_from(state, n) {
            k = enlist(state, out, k, n, n + 16);
        }
    }
    k
}

// A tree, and the nodes of it that are in use, but for node 0: each once.
#[derive(Clone, Copy)]
pub struct NodesInUse<'a> {
    pub tree: &'a Tree,
    pub used: &'a [u8],
    pub ghost few: { length used.now ≤ 128 },
    pub ghost each: { (j : ℕ) → j < length used.now → (at used.now j ≢ 0) × (at used.now j < 128) × (at tree.now.state (at used.now j) ≢ 0) },
    pub ghost apart: { (i j : ℕ) → i < length used.now → j < length used.now → at used.now i ≡ at used.now j → i ≡ j },
    pub ghost all: { (n : ℕ) → n ≢ 0 → n < 128 → at tree.now.state n ≢ 0 → (j : ℕ) × (j < length used.now) × (at used.now j ≡ n) } by { all_prop tree.now.state used.now apart },
}

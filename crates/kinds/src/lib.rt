// Rule 2 of SPEC 4: what a node of each state has. Each part counts what is wrong in a loop that is never left early: so the compiler takes many nodes at once.
#![tactic(auto)]

ghost use Rattle.std.specs.Prelude.{◌≡◌, ◌≢◌, true, false, ℕ, ◌<◌};
ghost use Rattle.basics.specs.Decide.{Decides};
ghost use Rattle.faults.specs.Faults.{Below};
ghost use Rattle.trees.specs.Rules.{States};
ghost use Rattle.kinds.specs.Kinds.{AtMost, Hung, Named};

use trees::Tree;

// Is no node wrong? All are counted that are.
fn none_is<F: Fn(usize) -> bool>(wrong: F) -> bool
    requires { (n : ℕ) → n < 128 → F.pre wrong n }
    ensures all { result ≡ true → (n : ℕ) → n < 128 → F.post wrong n false }
    ensures one { result ≡ false → (n : ℕ) × (n < 128) × F.post wrong n true }
{
    let mut count: u8 = 0;
    for n in 0..128usize {
        if wrong(n) {
            count += 1;
        }
    }
    count == 0
}

// Is no state above a number?
pub fn at_most(state: &[u8; 128], most: u8) -> bool
    ensures { Decides result (Below (AtMost state.now most) 128) }
{
    none_is(
        |n|
            requires { n < 128 }
            ensures { Decides result (AtMost state.entry.now most n → ⊥) }
        { state[n] > most },
    )
}

// Has an empty node a parent? The two numbers are compared in a function of their own, so that the loop that asks has no branch left.
fn stray_parent(s: u8, p: u8) -> bool
    ensures { Decides result ((s ≡ 0) × (p ≢ 0)) }
{
    s == 0 && p != 0
}

// Has a node a tag that is not alive?
fn stray_tag(s: u8, g: u16) -> bool
    ensures { Decides result ((s ≢ 1) × (g ≢ 0)) }
{
    s != 1 && g != 0
}

// Has no empty node a parent?
fn hung(state: &[u8; 128], parent: &[u8; 128]) -> bool
    ensures { Decides result (Below (Hung state.now parent.now) 128) }
{
    none_is(
        |n|
            requires { n < 128 }
            ensures { Decides result (Hung state.entry.now parent.entry.now n → ⊥) }
        { stray_parent(state[n], parent[n]) },
    )
}

// Has no node a tag that is not alive?
fn named(state: &[u8; 128], tag: &[u16; 128]) -> bool
    ensures { Decides result (Below (Named state.now tag.now) 128) }
{
    none_is(
        |n|
            requires { n < 128 }
            ensures { Decides result (Named state.entry.now tag.entry.now n → ⊥) }
        { stray_tag(state[n], tag[n]) },
    )
}

// Rule 2.
pub fn states(tree: &Tree) -> bool
    ensures { Decides result (States tree.now) }
{
    tree.state[0] == 1
        && tree.tag[0] == 0
        && tree.parent[0] == 0
        && at_most(&tree.state, 2)
        && hung(&tree.state, &tree.parent)
        && named(&tree.state, &tree.tag)
}

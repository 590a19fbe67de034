// The nodes in use in an order: each comes after its parent. The order is guessed, and then tested.
#![tactic(auto)]

ghost use Rattle.std.specs.Prelude.{◌≡◌, true, false, ℕ, ◌≤◌, ◌<◌, length, take, IfSome};
ghost use Rattle.basics.specs.Decide.{Decides, at};
ghost use Rattle.table.specs.Rules.{Nodes};
ghost use Rattle.ordering.specs.Ordered.{Follows, Ordered, is_noted, Noting};

use guessing::Children;
use listing::NodesInUse;
use trees::Tree;

// Nodes side by side, the first ones of 128, and for each node the position behind its children.
// They are arrays of node numbers: on board there is no heap, and memory is fixed.
#[derive(Clone, Copy)]
pub struct Queue {
    pub node: [u8; 128],
    pub end: [u8; 128],
    pub count: usize,
    pub ghost nodes: { Nodes node },
    pub ghost few: { count ≤ 128 },
}

// Node c and those after it join the queue, as far as it has room. Part of a guess: beyond being nodes they are free.
fn join(kin: &Children, queue: &mut Queue, c: u8)
    requires { c < 128 }
{
    let mut n = c;
    for k in queue.count..128 {
        if n == 0 {
            return;
        }
        queue.node[k] = n;
        queue.count = k + 1;
        n = kin.after[usize::from(n)];
    }
}

// Node p's children join the queue. Part of a guess: beyond being nodes they are free.
fn join_children(kin: &Children, queue: &mut Queue, p: usize)
    requires { p < 128 }
{
    join(kin, queue, kin.first[p]);
    queue.end[p] = queue.count as u8;
}

// Node 0's children, and behind them the children of each in turn. Only a guess, which `ordered` tests: beyond being nodes they are free.
pub fn lined_up(kin: &Children) -> Queue {
    let mut queue = Queue {
        node: [0u8; 128],
        end: [0u8; 128],
        count: 0,
    };
    join_children(kin, &mut queue, 0);
    for i in 0..128 {
        if i == queue.count {
            return queue;
        }
        let p = usize::from(queue.node[i]);
        join_children(kin, &mut queue, p);
    }
    queue
}

// Does each node of a list come after its parent, and before the end of its parent's children? They are noted; if one does not, what is noted is left free.
fn parents_first(parent: &[u8; 128], order: &[u8], end: &[u8; 128], seen: &mut [bool]) -> bool
    requires { (length seen.old ≡ 128) × ((n : ℕ) → is_noted seen.old n ≡ false) }
    ensures { (length seen.new ≡ 128) × (result ≡ true → Noting parent.now order.now end.now seen.new (length order.now))
        × (result ≡ false → ((j : ℕ) → j < length order.now → Follows parent.now order.now end.now j) → ⊥) }
{
    for (j, c) in order.iter().enumerate() {
        let c = usize::from(*c);
        if c == 0 {
            return false;
        }
        if c >= 128 {
            return false;
        }
        let p = usize::from(parent[c]);
        if p >= 128 {
            return false;
        }
        if p != 0 {
            if !seen[p] {
                return false;
            }
            if j >= usize::from(end[p]) {
                return false;
            }
        }
        seen[c] = true;
    }
    true
}

// Are all nodes of a list noted?
fn all_noted(used: &[u8], seen: &[bool]) -> bool
    requires { (length seen.now ≡ 128) × ((i : ℕ) → i < length used.now → at used.now i < 128) }
    ensures { Decides result ((i : ℕ) → i < length used.now → is_noted seen.now (at used.now i) ≡ true) }
{
    for n in used {
        if !seen[usize::from(*n)] {
            return false;
        }
    }
    true
}

// Has a list all nodes in use, each after its parent and before the end of its parent's children?
pub fn ordered(nodes: &NodesInUse, order: &[u8], end: &[u8; 128]) -> bool
    ensures { Decides result (Ordered nodes.now.tree.now order.now end.now) }
{
    let mut seen = [false; 128];
    parents_first(&nodes.tree.parent, order, end, &mut seen) && all_noted(nodes.used, &seen)
}

// All nodes in use in such an order, where the guess at it holds.
pub fn order(nodes: &NodesInUse, kin: &Children) -> Option<Queue>
    ensures { IfSome result (λ q. Ordered nodes.now.tree.now (take q.count q.node) q.end) }
{
    let queue = lined_up(kin);
    if ordered(nodes, &queue.node[..queue.count], &queue.end) {
        return Some(queue);
    }
    None
}

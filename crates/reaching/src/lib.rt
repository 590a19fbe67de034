// Is a node's own row read by one version alone? The nodes are passed in an order in which each comes after its parent, so that one pass tells who reads it.
#![tactic(auto)]

ghost use Rattle.std.specs.Prelude.{true, false, ◌≢◌, ◌≡◌, ◌<◌, take, IfSome};
ghost use Rattle.basics.specs.Decide.{Decides};
ghost use Rattle.bits.specs.Bits.{has};
ghost use Rattle.table.specs.Rules.{slot, MarkedRow, Seeking};
ghost use Rattle.asking.specs.Asking.{Asking, OthersMeet, MeetsAlone, Childless};
ghost use Rattle.ordering.specs.Ordered.{Ordered};

use guessing::Children;
use measures::Row;
use ordering::Queue;
use trees::Tree;

// Is a node in this state a living version's, and not the one at node v?
fn another(s: u8, n: usize, v: usize) -> bool
    ensures { Decides result ((s ≡ 1) × (n ≢ v)) }
{
    s == 1 && n != v
}

// Does a node meet what its parent meets? So it does if it has no mark at row r; `above` tells whether the parent meets it.
fn meets_too(above: bool, marks: &[u8], c: usize, r: Row) -> bool
    requires { MarkedRow marks.now r.0 × (c < 128) }
    ensures { Decides result ((above ≡ true) × (has marks.now (slot c r.0) ≡ false)) }
{
    above && !bits::has(marks, table::slot(c, r))
}

// Does a living version other than the one at node v read node g's own row r? Each node that meets g is noted, if its parent is and it has no mark. Past the children of those
// that are noted there is nothing to find.
pub fn others_reach(
    tree: &Tree,
    order: &[u8],
    end: &[u8; 128],
    marks: &[u8],
    v: usize,
    g: usize,
    r: Row,
) -> bool
    requires { Seeking tree.now marks.now g r.0 × Ordered tree.now order.now end.now × (g < 128) }
    ensures { Decides result (OthersMeet tree.now marks.now v g r.0) }
{
    if another(tree.state[g], g, v) {
        return true;
    }
    let mut reach = [false; 128];
    reach[g] = true;
    let mut far = usize::from(end[g]);
    for (j, c) in order.iter().enumerate() {
        if far <= j {
            return false;
        }
        let c = usize::from(*c);
        let p = usize::from(tree.parent[c]);
        if meets_too(reach[p], marks, c, r) {
            if another(tree.state[c], c, v) {
                return true;
            }
            reach[c] = true;
            far = far.max(usize::from(end[c]));
        }
    }
    false
}

// The version at node v goes: the tree with it, the tree without it, of which only a guess is made, the nodes in an order where one is known,
// their children as guessed, the marks of the table, and whether v has no child.
#[derive(Clone, Copy)]
pub struct Removal<'a> {
    pub tree: &'a Tree,
    pub without: &'a Tree,
    pub order: &'a Option<Queue>,
    pub kin: &'a Children,
    pub marks: &'a [u8],
    pub v: usize,
    pub leaf: bool,
    pub ghost childless: { leaf ≡ true → Childless tree.now v },
}

// Does any living version other than the one at node v read it? The nodes are passed in their order, where that is known; else all living versions are asked.
fn others(removal: &Removal, g: usize, r: Row) -> bool
    requires { Seeking removal.now.tree.now removal.now.marks.now g r.0 × (g < 128)
        × IfSome removal.now.order.now (λ q. Ordered removal.now.tree.now (take q.count q.node) q.end) }
    ensures { Decides result (OthersMeet removal.now.tree.now removal.now.marks.now removal.now.v g r.0) }
{
    let order = removal.order;
    match order {
        Some(queue) => {
            let nodes = &queue.node[..queue.count];
            others_reach(
                removal.tree,
                nodes,
                &queue.end,
                removal.marks,
                removal.v,
                g,
                r,
            )
        }
        None => asking::others_read(removal.tree, removal.marks, removal.v, g, r),
    }
}

// Does the version at node v read node g's own row r, and no other? Of a node without a child it is known. Else a likely other reader is asked first, one below g that is alive in the tree
// without v. If it is none, and v itself reads it, the others are asked.
pub fn alone(removal: &Removal, g: usize, r: Row) -> bool
    requires { Asking removal.now.tree.now removal.now.marks.now removal.now.v g r.0
        × IfSome removal.now.order.now (λ q. Ordered removal.now.tree.now (take q.count q.node) q.end) }
    ensures { Decides result (MeetsAlone removal.now.tree.now removal.now.marks.now removal.now.v g r.0) }
{
    if g == 0 {
        return false;
    }
    if g == removal.v && removal.leaf {
        return true;
    }
    let n = guessing::reader(removal.without, removal.kin, removal.marks, g, r);
    if asking::other_reads(removal.tree, removal.marks, n, removal.v, g, r) {
        return false;
    }
    if !table::meets(removal.tree, removal.marks, removal.v, g, r) {
        return false;
    }
    !others(removal, g, r)
}

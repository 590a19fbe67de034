// Rule 4 of SPEC 4: the snapshots have tags above 0, all different, and are at most 64.
#![tactic(auto)]

ghost use Rattle.std.specs.Prelude.{◌≡◌, ◌<◌, length};
ghost use Rattle.basics.specs.Decide.{Decides, at};
ghost use Rattle.trees.specs.Rules.{States, Tagged};
ghost use Rattle.tagging.specs.Tags.{Differs, TagAt, Seen, Fitted};

use listing::NodesInUse;
use trees::Tree;

// The tag at a position of the list.
fn tag_at(nodes: &NodesInUse, i: usize) -> u16
    requires { i < length nodes.now.used.now }
    ensures { result ≡ at nodes.now.tree.now.tag (at nodes.now.used.now i) }
{
    nodes.tree.tag[usize::from(nodes.used[i])]
}

// Is a tag, the one at position j of the list, none of those before it?
fn differs(nodes: &NodesInUse, j: usize, wanted: u16) -> bool
    requires { (j < length nodes.now.used.now) × (wanted ≡ at nodes.now.tree.now.tag (at nodes.now.used.now j)) }
    ensures { Decides result (Differs nodes.now.tree.now.tag nodes.now.used.now j) }
{
    for i in 0..j {
        if tag_at(nodes, i) == wanted {
            return false;
        }
    }
    true
}

// Rule 4's first half at position j of the list, where a living node stands with a tag. Only a tag whose remainder was seen before is compared with those before it.
fn tag_fits(nodes: &NodesInUse, seen: &mut [bool], j: usize, g: u16) -> bool
    requires { (j < length nodes.now.used.now) × (g ≡ at nodes.now.tree.now.tag (at nodes.now.used.now j)) × States nodes.now.tree.now
        × Seen nodes.now.tree.now nodes.now.used.now seen.old j }
    ensures { Fitted nodes.now.tree.now nodes.now.used.now j ((0 < g) × Differs nodes.now.tree.now.tag nodes.now.used.now j) seen.new result }
{
    if g == 0 {
        return false;
    }
    let s = usize::from(g % 251);
    if seen[s] {
        return differs(nodes, j, g);
    }
    seen[s] = true;
    true
}

// Rule 4's first half at position j of the list.
fn tag_read(nodes: &NodesInUse, seen: &mut [bool], j: usize) -> bool
    requires { (j < length nodes.now.used.now) × States nodes.now.tree.now
        × Seen nodes.now.tree.now nodes.now.used.now seen.old j }
    ensures { Fitted nodes.now.tree.now nodes.now.used.now j (TagAt nodes.now.tree.now nodes.now.used.now j) seen.new result }
{
    let n = usize::from(nodes.used[j]);
    if nodes.tree.state[n] != 1 {
        return true;
    }
    let g = tag_at(nodes, j);
    tag_fits(nodes, seen, j, g)
}

// Rule 4, of a tree that meets rule 2, with a list of the nodes in use.
pub fn tagged(nodes: &NodesInUse) -> bool
    requires { States nodes.now.tree.now }
    ensures { Decides result (Tagged nodes.now.tree.now) }
{
    if tree::snapshots(nodes.tree) > 64 {
        return false;
    }
    let mut seen = [false; 251];
    for j in 0..nodes.used.len() {
        if !tag_read(nodes, &mut seen, j) {
            return false;
        }
    }
    true
}

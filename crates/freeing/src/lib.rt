// Freeing what only one version reads, entry by entry, with a mark for each node and row that an entry names.
#![tactic(auto)]

ghost use Rattle.std.specs.Prelude.{◌≡◌, take, IfSome};
ghost use Rattle.trees.specs.Trees.{Snapshot};
ghost use Rattle.trees.specs.Rules.{States};
ghost use Rattle.table.specs.Rules.{Judging};
ghost use Rattle.affecting.specs.Affected.{Affected};
ghost use Rattle.ordering.specs.Ordered.{Ordered};
ghost use Rattle.records.specs.Records.{table};
ghost use Rattle.records.specs.Lent.{lent, SameLent};
ghost use Rattle.removal.specs.Removal.{Freed};

use listing::NodesInUse;
use measures::Row;
use reaching::Removal;
use records::Records;
use trees::Tree;

// The entries that only the version at node v reads become free. Only those of affected nodes are asked. The marks are those of the table as it was.
fn free_affected(removal: &Removal, affected: &[bool; 128], records: &mut Records<'_>)
    requires { Snapshot removal.now.tree.now removal.now.v
        × Judging removal.now.tree.now (table (lent records.old)) removal.now.marks.now
        × Affected removal.now.tree.now removal.now.v affected.now
        × IfSome removal.now.order.now (λ q. Ordered removal.now.tree.now (take q.count q.node) q.end) }
    ensures same { SameLent records.old records.new }
    ensures kept { records.new.tree ≡ records.old.tree }
    ensures freed { Freed removal.now.tree.now (table (lent records.old)) removal.now.v records.new.node.now records.new.row.now }
{
    for i in 0..records.node.len() {
        let g = usize::from(records.node[i]);
        if affected[g] {
            let r = Row(usize::from(records.row[i]));
            if reaching::alone(removal, g, r) {
                records.node[i] = 0;
                records.row[i] = 0;
            }
        }
    }
}

// The entries that only the version at node v reads become free. Of the tree without v only a guess is made.
pub fn free_alone(
    nodes: &NodesInUse,
    without: &Tree,
    records: &mut Records<'_>,
    marks: &[u8],
    v: usize,
)
    requires { States nodes.now.tree.now × Snapshot nodes.now.tree.now v
        × Judging nodes.now.tree.now (table (lent records.old)) marks.now }
    ensures same { SameLent records.old records.new }
    ensures kept { records.new.tree ≡ records.old.tree }
    ensures freed { Freed nodes.now.tree.now (table (lent records.old)) v records.new.node.now records.new.row.now }
{
    let tree = nodes.tree;
    let affected = affecting::affected(tree, v);
    let near = nearing::near(nodes);
    let kin = guessing::kin(nodes, &near);
    let order = ordering::order(nodes, &kin);
    let removal = Removal {
        tree,
        without,
        order: &order,
        kin: &kin,
        marks,
        v,
        leaf: nodes::childless(tree, v),
    };
    free_affected(&removal, &affected, records);
}

// Whether a node is a router, from the parents alone (document 02, E3: "A router is node 1 or a node with children"). Entry v of `parents`
// is node v's parent.
ghost use Rattle.std.specs.Prelude.{◌≡◌, ◌&&◌};
ghost use Rattle.tree_model.specs.Tree.{is_number, is_router};
ghost use Rattle.tree_plan_model.specs.Inner.{shape};

// Whether the sink is a router of the tree.
#[tactic(auto, unfolding(tree_model::specs::Tree::is_number))]
pub fn sink_right(parents: &[u8], sink: u64) -> bool
    ensures { result ≡ is_number (shape parents.now) sink && is_router (shape parents.now) sink }
{
    (1..parents.len() as u64).contains(&sink) && is_router(parents, sink as usize)
}

// Whether a node is the root or has children.
#[tactic(auto, unfolding(tree_model::specs::Tree::is_router))]
fn is_router(parents: &[u8], v: usize) -> bool
    ensures { result ≡ is_router (shape parents.now) v }
{
    v == 1
        || parents
            .iter()
            .skip(1)
            .any(|parent| usize::from(*parent) == v)
}

// Lists of children: each node's first child and each child's next sibling, by one pass over the parents. A table of kin has three parts of
// 256 numbers: entry v of each is node v's parent, first child and next sibling, 0 where there is none.
//
// No public function has a `requires`.
#![tactic(auto)]

ghost use Rattle.std.specs.Prelude.{◌≡◌, ◌≤◌, length};
ghost use Rattle.tree_plan_model.specs.Children.{Linked, router_in};

// Where the parts of a table of kin begin, behind the parents.
const FIRST: usize = 256;

const NEXT: usize = 512;

// Links the children of up to 255 nodes, those of each with the lowest number first, by one pass from the last node to the first. Entry v of
// `parents` is node v's; entry 0 is of no node.
pub fn link_children(parents: &[u8], kin: &mut [u8; 768])
    ensures linked { length parents.now ≤ 256 → Linked parents.now kin.new }
    ensures kin_len { length kin.new ≡ 768 }
{
    kin.fill(0);
    for w in (1..parents.len().min(FIRST)).rev() {
        let parent = parents[w];
        let first = FIRST + usize::from(parent);
        kin[w] = parent;
        kin[NEXT + w] = kin[first];
        kin[first] = w as u8;
    }
}

// Whether a node of linked children is a router: the root, or a node with a child.
#[tactic(auto, unfolding(tree_plan_model::specs::Children::router_in))]
pub fn is_router(kin: &[u8; 768], v: usize) -> bool
    ensures { result ≡ router_in kin.now v }
{
    v == 1 || (v < FIRST && 0 < kin[FIRST + v])
}

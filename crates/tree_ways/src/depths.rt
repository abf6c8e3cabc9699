// The depth of every node: one more than its parent's. What is required here `ways_of` meets.
ghost use Rattle.std.specs.Prelude.{◌≡◌, ◌≤◌, length};
ghost use Rattle.tree_model.specs.Tree.{Rooted, WithoutGaps};
ghost use Rattle.tree_plan_model.specs.Inner.{shape};
ghost use Rattle.tree_plan_model.specs.Filled.{DepthsSet};

// Sets the depths, each from the parent's, whose number is smaller.
pub(crate) fn set_depths(parents: &[u8], depths: &mut [u8])
    requires in_bounds { 1 ≤ length parents.now }
    requires rooted { Rooted (shape parents.now) }
    requires without_gaps { WithoutGaps (shape parents.now) }
    requires depths_len { length depths.old ≡ 256 }
    ensures { DepthsSet parents.now depths.new }
{
    depths[1] = 0;
    for v in 2..parents.len() {
        let above = depths[usize::from(parents[v])];
        depths[v] = above + 1;
    }
}

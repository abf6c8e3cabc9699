// Tables of links, one link for each depth, as they are read.
ghost use Rattle.std.specs.Prelude.{◌≡◌, min, slice_index_or};
ghost use Rattle.row_plan_model.specs.Inner.{no_link};

use row_plan_model::{DEPTHS, Link};

// The link of depth i. No row is deeper than 12: a greater depth counts as 12.
pub fn link_at(table: &[Link; DEPTHS], i: u64) -> Link
    ensures { result ≡ slice_index_or table.now (min i 12) no_link }
{
    if 12 < i {
        return table[12];
    }
    table[i as usize]
}

// The sink's condition of number 10, then 3, 4 and 6, of a list that keeps number 10 but for the sink. What is required here `loads_of`
// meets.
ghost use Rattle.std.specs.Prelude.{◌≡◌, ◌≤◌, length};
ghost use Rattle.refusals.specs.Conditions.{verdict};
ghost use Rattle.settings_model.specs.Laws.{CheckedRadio};
ghost use Rattle.tree_model.specs.Tree.{routers};
ghost use Rattle.tree_model.specs.Checks.{routers_fit};
ghost use Rattle.tree_plan_model.specs.Children.{Linked};
ghost use Rattle.tree_plan_model.specs.Inner.{shape, checks_before_slots};

use refusals::{Refusal, TreeRefusal};
use settings_model::Radio;
use tree_children::is_router;
use tree_list::shape::sink_right;

// All of them, in their order.
pub(crate) fn check_before_slots(
    parents: &[u8],
    kin: &[u8; 768],
    b: Radio,
    sink: u64,
) -> Result<(), Refusal>
    requires in_bounds { 1 ≤ length parents.now }
    requires parents_len_bound { length parents.now ≤ 255 }
    requires linked { Linked parents.now kin.now }
    ensures { result ≡ verdict (checks_before_slots b (shape parents.now) sink) }
{
    if !sink_right(parents, sink) {
        return Err(Refusal::InTree(TreeRefusal::SinkNode));
    }
    settings::check_radio(b)?;
    superframes_fit(parents, kin, b)
}

// Number 6, of checked settings.
fn superframes_fit(parents: &[u8], kin: &[u8; 768], b: Radio) -> Result<(), Refusal>
    requires in_bounds { 1 ≤ length parents.now }
    requires parents_len_bound { length parents.now ≤ 255 }
    requires linked { Linked parents.now kin.now }
    requires checked_radio { CheckedRadio b }
    ensures { result ≡ verdict (routers_fit b (shape parents.now)) }
{
    let routers = routers_in(parents, kin);
    let superframes = 1 << (b.bo - b.so);
    if superframes < routers {
        return Err(Refusal::Superframes {
            routers,
            superframes,
        });
    }
    Ok(())
}

// The number of routers.
fn routers_in(parents: &[u8], kin: &[u8; 768]) -> u64
    requires in_bounds { 1 ≤ length parents.now }
    requires parents_len_bound { length parents.now ≤ 255 }
    requires linked { Linked parents.now kin.now }
    ensures { result ≡ routers (shape parents.now) }
{
    let mut count = 0;
    for v in 1..parents.len() {
        if is_router(kin, v) {
            count += 1;
        }
    }
    count
}

// The depths of a surveyed tree's nodes and the delays of their ways to the sink (document 02, E3), once every condition is kept.
//
// No public function has a `requires`: each answers every argument. Inner functions presume what the checks before them have found; their
// `requires` say what.
#![tactic(auto)]

ghost use Rattle.std.specs.Prelude.{◌≡◌};
ghost use Rattle.refusals.specs.Conditions.{verdict, verdict_of};
ghost use Rattle.tree_plan_model.specs.Stages.{conditions_in, told, LoadsLeft, StageLeft, WaysLeft};

use crate::depths::set_depths;
use crate::ways::set_ways;
use plan_common::timing_of;
use settings_model::Radio;
use tree_plan_model::{RefusedTree, Stage};

pub mod figures; // the figures of a link
mod depths; // of every node
pub mod ways; // and of every way

// Checks every condition for any settings and any sink, and where they are kept sets the depth of every node and the delay of its way to the
// sink. Lent notes are those of `tree_loads`, and a refused tree's stage that of `tree_slots`. A refused tree leaves every number of the other
// tables as it was.
pub fn ways_of(
    input: &[u8],
    b: Radio,
    sink: u64,
    notes: &mut [u64; 768],
    depths: &mut [u8; 256],
    ways: &mut [u64; 256],
) -> Result<Stage, RefusedTree>
    ensures verdict_value { verdict_of (told result) ≡ verdict (conditions_in input.now b sink) }
    ensures loads_left { LoadsLeft input.now b sink (told result) notes.old notes.new }
    ensures stage_left { StageLeft input.now b sink result notes.new }
    ensures ways_left { WaysLeft input.now b sink (verdict_of (told result)) notes.new depths.old depths.new
        ways.old ways.new }
{
    let stage = tree_slots::check(input, b, sink, notes)?;
    let parents = &stage.kin[..=stage.nodes];
    set_depths(parents, depths);
    set_ways(timing_of(b), parents, notes, sink as usize, ways);
    Ok(stage)
}

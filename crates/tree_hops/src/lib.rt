// Where the frames of each node of a surveyed tree go next (document 02, E3: "Each link runs towards the sink and lies in the parent's
// superframe"), once every condition is kept: beside a plan's figures, three numbers a node.
//
// No public function has a `requires`: each answers every argument. Inner functions presume what the checks before them have found; their
// `requires` say what.
#![tactic(auto)]

ghost use Rattle.std.specs.Prelude.{◌≡◌};
ghost use Rattle.std.proofs.lemmas.List.Edits.{sets};
ghost use Rattle.refusals.specs.Conditions.{verdict, verdict_of};
ghost use Rattle.tree_read_model.specs.Survey.{tree_in, outcome_in};
ghost use Rattle.plan_model.specs.Plans.{written};
ghost use Rattle.tree_plan_model.specs.Hops.{hops_of};
ghost use Rattle.tree_plan_model.specs.Stages.{conditions_in, told, LoadsLeft, StageLeft, WaysLeft};

use crate::hops::put_hops;
use settings_model::Radio;
use tree_plan_model::{RefusedTree, Stage};
use tree_ways::ways_of;

mod hops; // node after node

// Checks every condition for any settings and any sink, and where they are kept puts each node's parent, its neighbour towards the sink and
// the router in whose superframe its link lies, as far as there is room. Refused, every byte is as it was. The other tables, and a
// refused tree's stage, are those of `tree_ways`.
pub fn hops_of(
    input: &[u8],
    b: Radio,
    sink: u64,
    notes: &mut [u64; 768],
    depths: &mut [u8; 256],
    ways: &mut [u64; 256],
    hops: &mut [u8],
) -> Result<Stage, RefusedTree>
    ensures verdict_value { verdict_of (told result) ≡ verdict (conditions_in input.now b sink) }
    ensures loads_left { LoadsLeft input.now b sink (told result) notes.old notes.new }
    ensures stage_left { StageLeft input.now b sink result notes.new }
    ensures ways_left { WaysLeft input.now b sink (verdict_of (told result)) notes.new depths.old depths.new
        ways.old ways.new }
    ensures hops_after { hops.new ≡ sets hops.old 0
        (written (hops_of (tree_in input.now) sink) (outcome_in input.now b sink)) }
{
    let stage = ways_of(input, b, sink, notes, depths, ways)?;
    put_hops(&stage.kin[..=stage.nodes], notes, sink as usize, hops);
    Ok(stage)
}

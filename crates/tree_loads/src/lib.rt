// The loads of a surveyed tree (document 02, E3): number 10, then 3, 4 and 6, and where they are kept the load that enters every node.
//
// No public function has a `requires`: each answers every argument. Inner functions presume what the checks before them have found; their
// `requires` say what.
#![tactic(auto)]

ghost use Rattle.std.specs.Prelude.{◌≡◌};
ghost use Rattle.refusals.specs.Conditions.{verdict, verdict_of};
ghost use Rattle.tree_plan_model.specs.Stages.{conditions_before_slots, LoadsLeft};

use crate::checks::check_before_slots;
use crate::walk::walk;
use plan_common::timing_of;
use refusals::Refusal;
use settings_model::Radio;
use tree_children::link_children;
use tree_list::read_list;
use tree_plan_model::Stage;

mod checks; // the sink's condition, 3, 4 and 6
mod walk; // over the tree, away from the sink

// Reads the list of a text and checks 10, 3, 4 and 6 for any settings and any sink. Where they are kept, lent notes hold the load that
// enters each node and its neighbour towards the sink. A refused tree leaves every number as it was.
pub fn loads_of(input: &[u8], b: Radio, sink: u64, notes: &mut [u64; 768]) -> Result<Stage, Refusal>
    ensures verdict_value { verdict_of result ≡ verdict (conditions_before_slots input.now b sink) }
    ensures loads_left { LoadsLeft input.now b sink result notes.old notes.new }
{
    let mut kin = [0u8; 768];
    let listed = read_list(input)?;
    let nodes = listed.nodes;
    let parents = &listed.parents[..=nodes];
    link_children(parents, &mut kin);
    check_before_slots(parents, &kin, b, sink)?;
    walk(
        timing_of(b),
        nodes,
        &kin,
        &listed.bursts,
        &listed.rates,
        sink as usize,
        notes,
    );
    Ok(Stage { nodes, kin })
}

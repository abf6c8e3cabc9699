// The slots of a surveyed tree's routers (document 02, E3): all conditions up to number 7.
//
// No public function has a `requires`: each answers every argument. Inner functions presume what the checks before them have found; their
// `requires` say what.
#![tactic(auto)]

ghost use Rattle.std.specs.Prelude.{◌≡◌, ◌≤◌, ◌-◌, length};
ghost use Rattle.refusals.specs.Conditions.{verdict, verdict_of};
ghost use Rattle.tree_plan_model.specs.Stages.{conditions_in, told, LoadsLeft, StageLeft};
ghost use Rattle.tree_plan_model.specs.Tables.{Loaded, routers_in_from};

use crate::routers::routers_fit;
use crate::tally::tally;
use links::Timing;
use plan_common::timing_of;
use refusals::Refusal;
use settings_model::Radio;
use tree_loads::loads_of;
use tree_plan_model::{RefusedTree, Stage};

mod routers; // numbers 5 and 7, router by router
mod tally; // the reservations of every router, by one pass

// Checks every condition, 10 and 3 to 7, for any settings and any sink. Lent notes are those of `loads_of`: made where 10, 3, 4 and 6 are
// kept, and else as they were. There the stage is answered too, also where 5 or 7 refuses the tree.
pub fn check(
    input: &[u8],
    b: Radio,
    sink: u64,
    notes: &mut [u64; 768],
) -> Result<Stage, RefusedTree>
    ensures verdict_value { verdict_of (told result) ≡ verdict (conditions_in input.now b sink) }
    ensures loads_left { LoadsLeft input.now b sink (told result) notes.old notes.new }
    ensures stage_left { StageLeft input.now b sink result notes.new }
{
    let stage = match loads_of(input, b, sink, notes) {
        Ok(stage) => stage,
        Err(refusal) => {
            return Err(RefusedTree {
                refusal,
                stage: None,
            });
        }
    };
    let parents = &stage.kin[..=stage.nodes];
    match slots_fit(timing_of(b), b.so, parents, notes, sink as usize) {
        Ok(()) => Ok(stage),
        Err(refusal) => Err(RefusedTree {
            refusal,
            stage: Some(stage),
        }),
    }
}

// Numbers 5 and 7.
fn slots_fit(
    t: Timing,
    so: u64,
    parents: &[u8],
    notes: &[u64; 768],
    sink: usize,
) -> Result<(), Refusal>
    requires loaded { Loaded t parents.now notes.now }
    requires so_bound { so ≤ 14 }
    ensures { result ≡ verdict
        (routers_in_from t so parents.now notes.now sink (length parents.now - 1) 1) }
{
    let mut counts = [0u8; 256];
    let mut used = [0u64; 256];
    tally(t, parents, notes, sink, &mut counts, &mut used);
    routers_fit(so, parents.len(), &counts, &used)
}

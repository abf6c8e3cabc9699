// What is decided of a surveyed tree (document 02, E3): the first refusal of 10 and 3 to 7, or the figures of its plan in a lent table, ten
// numbers a node, and beside them where each node's frames go next.
//
// No public function has a `requires`: each answers every argument. Inner functions presume what the checks before them have found; their
// `requires` say what.
#![tactic(auto)]

ghost use Rattle.std.specs.Prelude.{◌≡◌, ◌≤◌, IfOk, OnOk};
ghost use Rattle.std.proofs.lemmas.List.Edits.{sets};
ghost use Rattle.tree_model.specs.Lines.{lines};
ghost use Rattle.tree_model.specs.Promise.{Keeps};
ghost use Rattle.tree_read_model.specs.Survey.{tree_in, outcome_in};
ghost use Rattle.plan_model.specs.Plans.{answer, written};
ghost use Rattle.node_table_model.specs.NodeRows.{tree_table};
ghost use Rattle.tree_plan_model.specs.Hops.{hops_of};

use crate::node_lines::put_lines;
use plan_common::timing_of;
use refusals::Refusal;
use settings_model::Radio;
use tree_hops::hops_of;

mod figures; // of a node
mod node_lines; // the lines of the plan

// Decides on the tree of a text with any settings and any sink: its verdict, and, as far as there is room, ten numbers for each node at the
// front of a lent table and three beside. Both are left as they were where the tree is refused. Where it is planned, demand 3 holds of the
// lines.
pub fn decide(
    input: &[u8],
    b: Radio,
    sink: u64,
    table: &mut [u64],
    hops: &mut [u8],
) -> Result<usize, Refusal>
    ensures value { result ≡ answer tree_table (outcome_in input.now b sink) }
    ensures length_bound { IfOk result (λ n. n ≤ 2540) }
    ensures table_after { table.new ≡ sets table.old 0 (written tree_table (outcome_in input.now b sink)) }
    ensures hops_after { hops.new ≡ sets hops.old 0
        (written (hops_of (tree_in input.now) sink) (outcome_in input.now b sink)) }
    ensures keeps { OnOk result (Keeps b (tree_in input.now) sink (lines b (tree_in input.now) sink)) }
{
    let mut notes = [0u64; 768];
    let mut depths = [0u8; 256];
    let mut ways = [0u64; 256];
    let stage = match hops_of(input, b, sink, &mut notes, &mut depths, &mut ways, hops) {
        Ok(stage) => stage,
        Err(refused) => return Err(refused.refusal),
    };
    put_lines(
        timing_of(b),
        &stage.kin[..=stage.nodes],
        &stage.kin,
        &notes,
        &depths,
        &ways,
        sink as usize,
        table,
    );
    Ok(10 * stage.nodes)
}

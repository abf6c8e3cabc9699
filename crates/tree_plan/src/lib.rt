// Plans of surveyed trees (document 02, E3): from the bytes of a node list and the settings beside it to the plan's text, or the first
// refusal of numbers 10 and 3 to 7. A tree is decided once, and its text is put at most once.
//
// No public function has a `requires`: each answers every argument.
#![tactic(auto)]

ghost use Rattle.std.specs.Prelude.{◌≡◌, cond, ◌≤◌, min, leb, length, IfOk, OnOk, MatchResult};
ghost use Rattle.refusals.specs.Outcome.{Planned, Refused};
ghost use Rattle.std.proofs.lemmas.List.Edits.{sets};
ghost use Rattle.tree_model.specs.Lines.{lines};
ghost use Rattle.tree_model.specs.Promise.{Keeps};
ghost use Rattle.tree_read_model.specs.Survey.{tree_in, outcome_in};
ghost use Rattle.plan_model.specs.Plans.{answer, written};
ghost use Rattle.report_model.specs.TreeText.{tree_text};
ghost use Rattle.node_table_model.specs.NodeRows.{nodes_in};

use refusals::Refusal;
use report::LONGEST_TREE;
use settings_model::Radio;
use tree_decide::decide;
use tree_print::{print, printed_length};

// Plans the tree of a text with any settings beside it and any sink, and puts the plan's text at the front of lent memory, as far as there is room. A
// refused tree leaves every byte as it was. Where it is planned, demand 3 holds of the lines.
#[tactic(auto, unfolding(plan_model::specs::Plans::answer, plan_model::specs::Plans::written))]
pub fn plan_tree(input: &[u8], b: Radio, sink: u64, out: &mut [u8]) -> Result<usize, Refusal>
    ensures value { result ≡ answer tree_text (outcome_in input.now b sink) }
    ensures length_bound { IfOk result (λ n. n ≤ 48576) }
    ensures out_after { out.new ≡ sets out.old 0 (written tree_text (outcome_in input.now b sink)) }
    ensures keeps { OnOk result (Keeps b (tree_in input.now) sink (lines b (tree_in input.now) sink)) }
{
    let mut table = [0u64; 2540];
    let nodes = decide_nodes(input, b, sink, &mut table)?;
    Ok(print(&table, nodes, out))
}

// The same, but a text that is longer than the lent memory is not put: every byte is then as it was. So a buffer of one byte asks for the
// text's length alone, and nothing is printed.
#[tactic(auto, unfolding(plan_model::specs::Plans::answer, plan_model::specs::Plans::written))]
pub fn plan_within(input: &[u8], b: Radio, sink: u64, out: &mut [u8]) -> Result<usize, Refusal>
    ensures value { result ≡ answer tree_text (outcome_in input.now b sink) }
    ensures length_bound { IfOk result (λ n. n ≤ 48576) }
    ensures out_after { out.new ≡ cond (leb (length (written tree_text (outcome_in input.now b sink))) (length out.old))
        (sets out.old 0 (written tree_text (outcome_in input.now b sink))) out.old }
    ensures keeps { OnOk result (Keeps b (tree_in input.now) sink (lines b (tree_in input.now) sink)) }
{
    let mut table = [0u64; 2540];
    let nodes = decide_nodes(input, b, sink, &mut table)?;
    Ok(print_within(&table, nodes, out))
}

// Decides on the tree, and answers how many nodes it has: their lines then stand in the table.
fn decide_nodes(
    input: &[u8],
    b: Radio,
    sink: u64,
    table: &mut [u64; 2540],
) -> Result<usize, Refusal>
    ensures lines { MatchResult result
        (λ n. (n ≤ 254) × (outcome_in input.now b sink ≡ Planned (nodes_in table.new n)))
        (λ r. outcome_in input.now b sink ≡ Refused r) }
    ensures keeps { OnOk result (Keeps b (tree_in input.now) sink (lines b (tree_in input.now) sink)) }
{
    let mut hops = [0u8; 1];
    let numbers = decide(input, b, sink, table, &mut hops)?;
    Ok(numbers / 10)
}

// Puts the text of a table's lines where there is room for all of it, and answers its length. Where there is room for any text, its length
// is not computed first.
fn print_within(table: &[u64], nodes: usize, out: &mut [u8]) -> usize
    ensures value { result ≡ length (tree_text (nodes_in table.now (min nodes 254))) }
    ensures upper_bound { result ≤ 48576 }
    ensures out_after { out.new ≡ cond (leb result (length out.old))
        (sets out.old 0 (tree_text (nodes_in table.now (min nodes 254)))) out.old }
{
    if out.len() < LONGEST_TREE {
        let length = printed_length(table, nodes);
        if out.len() < length {
            return length;
        }
    }
    print(table, nodes, out)
}

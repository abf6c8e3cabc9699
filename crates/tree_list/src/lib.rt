// Node lists (document 02, E3): the nodes of a text, and number 10, "before all others".
//
// No public function has a `requires`: each answers every text. Inner functions presume what `read_list` meets; their `requires` say what.
#![tactic(auto)]

ghost use Rattle.std.specs.Prelude.{◌≡◌, ◌++◌, IfOk};
ghost use Rattle.refusals.specs.Conditions.{verdict, verdict_of};
ghost use Rattle.tree_read_model.specs.Survey.{node_lines, named, listed, surveyed};
ghost use Rattle.tree_plan_model.specs.Lists.{Whole};

use crate::lists::read_text;
use crate::shape::sink_right;
use refusals::{Refusal, TreeRefusal};
use tree_plan_model::Listed;

mod lists; // line by line
pub mod shape; // routers

// Reads the list of a text: number 10 but for the sink, and where it is kept, each node's parent, BURST and RATE.
pub fn read_list(input: &[u8]) -> Result<Listed, Refusal>
    ensures verdict_value { verdict_of result ≡ verdict (named input.now ++ listed (node_lines input.now)) }
    ensures whole { IfOk result (λ l. Whole (node_lines input.now) l.nodes l.parents l.bursts l.rates) }
{
    let mut parents = [0u8; 255];
    let mut bursts = [0u8; 255];
    let mut rates = [0u32; 255];
    let nodes = read_text(input, &mut parents, &mut bursts, &mut rates)?;
    Ok(Listed {
        nodes,
        parents,
        bursts,
        rates,
    })
}

// Number 10 alone: whether a text lists a tree that keeps every rule, and the sink is one of its routers.
pub fn check_list(input: &[u8], sink: u64) -> Result<(), Refusal>
    ensures { result ≡ verdict (surveyed input.now sink) }
{
    let listed = read_list(input)?;
    if sink_right(&listed.parents[..=listed.nodes], sink) {
        Ok(())
    } else {
        Err(Refusal::InTree(TreeRefusal::SinkNode))
    }
}

// The nodes of a list, taken from its bytes into three lent slices: entry v is of node v, and entry 0 of none (document 02, E3). Number 10
// but for the sink. What is required here `read_list` meets.
ghost use Rattle.std.specs.Prelude.{◌≡◌, Some};
ghost use Rattle.tree_read_model.specs.Entries.{parent_right, sensor_right, entry_right};
ghost use Rattle.tree_plan_model.specs.Lists.{Space, Front, TakenNode, lines_behind, ReadFrom, ReadText};

use lines::{Cursor, next_line, part};
use refusals::{Refusal, TreeRefusal};
use tree_read::fields::read_node;
use tree_read::names_match;
use tree_read_model::Entry;

// No list has more nodes.
const MOST_NODES: usize = 254;

// Reads a whole list: how many nodes it has.
pub(crate) fn read_text(
    input: &[u8],
    parents: &mut [u8],
    bursts: &mut [u8],
    rates: &mut [u32],
) -> Result<usize, Refusal>
    requires space { Space parents.old bursts.old rates.old }
    requires front { Front parents.old bursts.old rates.old }
    ensures { ReadText input.now result parents.new bursts.new rates.new }
{
    match next_line(input, Cursor { at: 0 }) {
        Some(line) if names_match(part(input, line.start, line.end)) => {
            read_nodes(input, line.next, parents, bursts, rates)
        }
        _ => Err(Refusal::InTree(TreeRefusal::NodeNames)),
    }
}

// Reads the node lines from a position on, node 1's first, which must be there: how many they are.
fn read_nodes(
    input: &[u8],
    from: Cursor,
    parents: &mut [u8],
    bursts: &mut [u8],
    rates: &mut [u32],
) -> Result<usize, Refusal>
    requires space { Space parents.old bursts.old rates.old }
    requires front { Front parents.old bursts.old rates.old }
    ensures { ReadFrom (lines_behind input.now from.at) result parents.new bursts.new rates.new }
{
    let mut cursor = from;
    let mut k = 0;
    while let Some(line) = next_line(input, cursor) {
        k += 1;
        if !take_node(part(input, line.start, line.end), k, parents, bursts, rates) {
            return Err(Refusal::InTree(TreeRefusal::NodeLine { line: k as u32 }));
        }
        cursor = line.next;
    }
    if k == 0 {
        return Err(Refusal::InTree(TreeRefusal::NodeLine { line: 1 }));
    }
    Ok(k)
}

// Takes the node of a line, which should be node k: whether it keeps the rules. A line that breaks one is not taken.
#[tactic(auto, using(crate::proofs::Takes::kept_small, crate::proofs::Takes::unread), unfolding(tree_read_model::specs::Entries::line_right, tree_read_model::specs::Survey::parent_in, tree_read_model::specs::Survey::burst_in, tree_read_model::specs::Survey::rate_in))]
fn take_node(
    line: &[u8],
    k: usize,
    parents: &mut [u8],
    bursts: &mut [u8],
    rates: &mut [u32],
) -> bool
    requires { Space parents.old bursts.old rates.old }
    ensures { TakenNode k line.now result parents.old bursts.old rates.old
        parents.new bursts.new rates.new }
{
    match read_node(line) {
        Some(entry) if entry_right(k, entry) => {
            parents[k] = entry.parent as u8;
            bursts[k] = entry.burst as u8;
            rates[k] = entry.rate as u32;
            true
        }
        _ => false,
    }
}

// Whether the values of a line keep the rules of node k.
#[tactic(auto, unfolding(tree_read_model::specs::Entries::entry_right))]
fn entry_right(k: usize, entry: Entry) -> bool
    ensures { result ≡ entry_right k (Some entry) }
{
    k <= MOST_NODES
        && entry.node == k as u64
        && parent_right(entry.node, entry.parent)
        && sensor_right(entry.burst, entry.rate)
}

// Node 1 is the root with PARENT 0; any other parent has a smaller number.
#[tactic(auto, unfolding(tree_read_model::specs::Entries::parent_right))]
fn parent_right(k: u64, parent: u64) -> bool
    ensures { result ≡ parent_right k parent }
{
    if k == 1 {
        parent == 0
    } else {
        (1..k).contains(&parent)
    }
}

// BURST and RATE are both in the ranges of a row's columns, or both 0.
#[tactic(auto, unfolding(tree_read_model::specs::Entries::sensor_right, settings_model::specs::Columns::column_at, settings_model::specs::Columns::twelve, settings_model::specs::Columns::every_column))]
fn sensor_right(burst: u64, rate: u64) -> bool
    ensures { result ≡ sensor_right burst rate }
{
    (burst == 0 && rate == 0) || ((1..=255).contains(&burst) && (1..=4095).contains(&rate))
}

// The entries for C that plan surveyed trees (document 02, E3 and E5): a node list as bytes, and beside it numbers.
ghost use Rattle.std.specs.Prelude.{◌≡◌, ◌≤◌};
ghost use Rattle.settings_model.specs.Checks.{radio};
ghost use Rattle.calls_model.specs.Calls.{left};
ghost use Rattle.calls_model.specs.Reasons.{ReadAgain};
ghost use Rattle.tree_calls_model.specs.Entries.{plan_tree, check_tree, explain_tree};
ghost use Rattle.tree_calls_model.specs.Promise.{PromisedTree};

use calls_model::Answer;

// Plans the tree of a node list, and writes nothing.
#[unsafe(no_mangle)]
pub extern "C" fn planner_check_tree(
    nodes: &[u8],
    bo: u32,
    so: u32,
    head: u32,
    payload: u32,
    ack: u32,
    sink: u32,
    loss: u32,
) -> Answer
    ensures value { result ≡ check_tree nodes.now (radio bo so head payload ack loss) sink }
    ensures length_bound { result.length ≤ 48576 }
{
    tree_calls::check_tree(nodes, bo, so, head, payload, ack, sink, loss)
}

// Plans the tree of a node list, and puts its text at the front of the lent buffer. A refused tree, also one whose text is longer than the
// buffer, leaves every byte as it was.
#[unsafe(no_mangle)]
pub extern "C" fn planner_plan_tree(
    nodes: &[u8],
    bo: u32,
    so: u32,
    head: u32,
    payload: u32,
    ack: u32,
    sink: u32,
    loss: u32,
    out: &mut [u8],
) -> Answer
    ensures out_after { left result out.new ≡ plan_tree nodes.now (radio bo so head payload ack loss) sink out.old }
    ensures promised_tree { PromisedTree nodes.now (radio bo so head payload ack loss) sink result out.new }
{
    tree_calls::plan_tree(nodes, bo, so, head, payload, ack, sink, loss, out)
}

// Puts one line of English at the front of the lent buffer: why the tree is refused, or that it is planned. A buffer that is shorter than the
// line keeps every byte.
#[unsafe(no_mangle)]
pub extern "C" fn planner_explain_tree(
    nodes: &[u8],
    bo: u32,
    so: u32,
    head: u32,
    payload: u32,
    ack: u32,
    sink: u32,
    loss: u32,
    out: &mut [u8],
) -> Answer
    ensures out_after { left result out.new ≡ explain_tree nodes.now (radio bo so head payload ack loss) sink out.old }
    ensures read_again { ReadAgain result out.new }
{
    tree_calls::explain_tree(nodes, bo, so, head, payload, ack, sink, loss, out)
}

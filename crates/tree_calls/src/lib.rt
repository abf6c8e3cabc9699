// Calls that plan a surveyed tree (document 02, E3 and E5), from a node list as bytes, and numbers beside it, to an answer and a text in a
// lent buffer.
//
// No public function has a `requires`: each answers every argument, as equations with definitions of tree_calls_model say. A refused tree, also
// one whose text is longer than the buffer (number 8), leaves every byte as it was.
#![tactic(auto)]

ghost use Rattle.std.specs.Prelude.{◌≡◌, ◌≤◌, length};
ghost use Rattle.std.proofs.lemmas.List.Edits.{sets};
ghost use Rattle.settings_model.specs.Checks.{radio};
ghost use Rattle.calls_model.specs.Calls.{left};
ghost use Rattle.calls_model.specs.Reasons.{ReadAgain};
ghost use Rattle.tree_calls_model.specs.Entries.{plan_tree, check_tree, tree_verdict_line, explain_tree};
ghost use Rattle.tree_calls_model.specs.Promise.{PromisedTree};

use buffer::put_bytes;
use calls::{answer_of, leave, refused};
use calls_model::Answer;
use reason_print::put_reason;
use refusals::Refusal;
use settings_model::Radio;
use tree_decide::decide;
use tree_plan::plan_within;

// Plans the tree of a node list, and writes nothing: no text fits one byte.
// Stays as it is: the C interface hands over what comes beside a list number by number, here and below.
pub fn check_tree(
    nodes: &[u8],
    bo: u32,
    so: u32,
    head: u32,
    payload: u32,
    ack: u32,
    sink: u32,
    loss: u32,
) -> Answer
    ensures value { result ≡ check_tree nodes.now (radio bo so head payload ack loss) sink }
    ensures length_bound { result.length ≤ 48576 }
{
    let b = radio_from(bo, so, head, payload, ack, loss);
    let mut space = [0u8; 1];
    answer_of(plan_within(nodes, b, u64::from(sink), &mut space))
}

// Plans the tree of a node list, and puts its text at the front of the lent buffer. A refused tree, also one whose text is longer than the
// buffer, leaves every byte as it was.
pub fn plan_tree(
    nodes: &[u8],
    bo: u32,
    so: u32,
    head: u32,
    payload: u32,
    ack: u32,
    sink: u32,
    loss: u32,
    out: &mut [u8],
) -> Answer
    ensures out_after { left result out.new ≡ plan_tree nodes.now (radio bo so head payload ack loss) sink out.old }
    ensures promised_tree { PromisedTree nodes.now (radio bo so head payload ack loss) sink result out.new }
{
    let b = radio_from(bo, so, head, payload, ack, loss);
    match plan_within(nodes, b, u64::from(sink), out) {
        Ok(length) if out.len() < length => refused(Refusal::LentTooShort),
        planned => answer_of(planned),
    }
}

// Puts one line of English at the front of the lent buffer: why the tree is refused, or that it is planned. A buffer that is shorter than the
// line keeps every byte.
pub fn explain_tree(
    nodes: &[u8],
    bo: u32,
    so: u32,
    head: u32,
    payload: u32,
    ack: u32,
    sink: u32,
    loss: u32,
    out: &mut [u8],
) -> Answer
    ensures out_after { left result out.new ≡ explain_tree nodes.now (radio bo so head payload ack loss) sink out.old }
    ensures read_again { ReadAgain result out.new }
{
    let b = radio_from(bo, so, head, payload, ack, loss);
    let mut table = [0u64; 1];
    let mut hops = [0u8; 1];
    let decided = decide(nodes, b, u64::from(sink), &mut table, &mut hops);
    let answer = answer_of(decided);
    let mut line = [0u8; reason_print::LONGEST];
    let n = put_tree_verdict(&mut line, decided);
    leave(answer.number, answer.place, &line[..n], out)
}

// Puts the line of a tree that was refused, or that it is planned, and answers its length.
fn put_tree_verdict(out: &mut [u8], planned: Result<usize, Refusal>) -> usize
    ensures value { result ≡ length (tree_verdict_line planned) }
    ensures upper_bound { result ≤ 160 }
    ensures out_after { out.new ≡ sets out.old 0 (tree_verdict_line planned) }
{
    match planned {
        Ok(_) => put_bytes(out, 0, b"The tree is planned."),
        Err(refusal) => put_reason(out, refusal),
    }
}

// What comes beside a node list.
fn radio_from(bo: u32, so: u32, head: u32, payload: u32, ack: u32, loss: u32) -> Radio
    ensures { result ≡ radio bo so head payload ack loss }
{
    Radio {
        bo: u64::from(bo),
        so: u64::from(so),
        head: u64::from(head),
        payload: u64::from(payload),
        ack: u64::from(ack),
        loss: u64::from(loss),
    }
}

// What program `plan_tree` prints for its arguments and its input (document 02, E3 and E5): the plan's text, or an `R` line; and the run of the
// program, from a reader to a writer.
//
// No public function has a `requires`.
#![tactic(auto)]

ghost use Rattle.std.specs.Prelude.{◌≡◌, ◌≤◌, [], ◌∷◌, length, Ok, Err, IfSome, IfOk, OnOk, IfErr};
ghost use Rattle.std.specs.Io.KnownBytes.{Appends};
ghost use Rattle.std.proofs.lemmas.List.Edits.{sets};
ghost use Rattle.refusals.specs.Conditions.{verdict};
ghost use Rattle.plan_model.specs.Plans.{answer, written};
ghost use Rattle.report_model.specs.TreeText.{tree_text};
ghost use Rattle.tree_program_model.specs.Output.{loss_in, unread, arguments_read, radio_of, sink_of, argument_conditions, call_outcome, tree_output};

use input::read_full;
use program_model::LIMIT;
use refusals::Refusal;
use report::{LONGEST_TREE, put_refusal};
use settings_model::Radio;
use std::io;
use std::io::{Read, Write};
use tree_list::check_list;
use tree_plan::plan_tree;
use tree_program_model::Arguments;

// Reads an input and writes what is printed for it. A reader that fails is answered as its error, and nothing is written then. Where the bytes of
// the reader and of the writer are known, Ok says that the writer has behind its own what is printed for all that the reader had.
pub fn run<R: Read, W: Write>(
    arguments: Arguments,
    reader: &mut R,
    writer: &mut W,
) -> io::Result<()>
    ensures { OnOk result (IfSome (R.remaining reader.old)
        (λ input. Appends (W.contents writer.old) (W.contents writer.new) (tree_output arguments input))) }
{
    // One byte more than an input may have: a longer one shows.
    let mut space = [0u8; 65537];
    let n = read_full(reader, &mut space)?;
    let mut out = [0u8; LONGEST_TREE];
    let length = put_tree_output(arguments, &space[..n], &mut out);
    writer.write_all(&out[..length])
}

// Puts what is printed at the front of lent memory, as far as there is room, and answers its length: 48,576 bytes are always enough.
#[tactic(auto, using(program_model::proofs::PrintedAnswers::answered), unfolding(tree_program_model::specs::Output::tree_output))]
pub fn put_tree_output(arguments: Arguments, input: &[u8], out: &mut [u8]) -> usize
    ensures value { result ≡ length (tree_output arguments input.now) }
    ensures upper_bound { result ≤ 48576 }
    ensures out_after { out.new ≡ sets out.old 0 (tree_output arguments input.now) }
{
    match plan_call(arguments, input, out) {
        Ok(length) => length,
        Err(refusal) => put_refusal(out, refusal),
    }
}

// The plan, or the first refusal of all.
#[tactic(auto, using(tree_program_model::proofs::Outputs::call_found, tree_program_model::proofs::Outputs::call_planned), unfolding(plan_model::specs::Plans::answer, plan_model::specs::Plans::written))]
fn plan_call(arguments: Arguments, input: &[u8], out: &mut [u8]) -> Result<usize, Refusal>
    ensures value { result ≡ answer tree_text (call_outcome arguments input.now) }
    ensures length_bound { IfOk result (λ n. n ≤ 48576) }
    ensures out_after { out.new ≡ sets out.old 0 (written tree_text (call_outcome arguments input.now)) }
{
    check_call(arguments, input)?;
    plan_tree(input, radio_of(arguments), sink_of(arguments), out)
}

// Numbers 9 and 2, and 10 before 2 where 2 is broken: else `plan_tree` asks it, so that a list is read once. So 10 may be broken where all is kept.
#[tactic(auto, using(refusals::proofs::Answering::two_verdicts), unfolding(tree_program_model::specs::Output::argument_conditions, program_model::specs::Printed::too_long, refusals::specs::Conditions::first_broken))]
fn check_call(arguments: Arguments, input: &[u8]) -> Result<(), Refusal>
    ensures broken { IfErr result (λ r. verdict (argument_conditions arguments input.now) ≡ Err r) }
    ensures kept { OnOk result ((length input.now ≤ 65536) × (verdict (arguments_read arguments) ≡ Ok tt)) }
{
    if LIMIT < input.len() {
        return Err(Refusal::InputTooLong);
    }
    match check_arguments(arguments) {
        Ok(()) => Ok(()),
        Err(unread) => {
            check_list(input, sink_of(arguments))?;
            Err(unread)
        }
    }
}

// Number 2: an argument that cannot be read, at its column in a row; one argument more, where column 14 would be.
#[tactic(auto, using(tree_program_model::proofs::Outputs::next_verdict), unfolding(tree_program_model::specs::Output::arguments_read, refusals::specs::Conditions::first_broken))]
fn check_arguments(arguments: Arguments) -> Result<(), Refusal>
    ensures { result ≡ verdict (arguments_read arguments) }
{
    readable(arguments.bo, 1)?;
    readable(arguments.so, 2)?;
    readable(arguments.head, 10)?;
    readable(arguments.payload, 11)?;
    readable(arguments.ack, 12)?;
    readable(loss_of(arguments), 13)?;
    if 7 < arguments.count {
        return Err(Refusal::TextAfter { column: 14 });
    }
    Ok(())
}

// Number 2 of one argument.
#[tactic(auto, unfolding(refusals::specs::Conditions::first_broken))]
fn readable(argument: Option<u64>, column: u32) -> Result<(), Refusal>
    ensures { result ≡ verdict (unread argument column ∷ []) }
{
    match argument {
        Some(_) => Ok(()),
        None => Err(Refusal::Unreadable { column }),
    }
}

// The settings beside; 0 for one that cannot be read, which is refused before they are used.
#[tactic(auto, unfolding(tree_program_model::specs::Output::radio_of))]
fn radio_of(arguments: Arguments) -> Radio
    ensures { result ≡ radio_of arguments }
{
    Radio {
        bo: arguments.bo.unwrap_or(0),
        so: arguments.so.unwrap_or(0),
        head: arguments.head.unwrap_or(0),
        payload: arguments.payload.unwrap_or(0),
        ack: arguments.ack.unwrap_or(0),
        loss: loss_of(arguments).unwrap_or(0),
    }
}

// LOSS: the seventh argument, or 0 where there is none.
#[tactic(auto, unfolding(tree_program_model::specs::Output::loss_in))]
fn loss_of(arguments: Arguments) -> Option<u64>
    ensures { result ≡ loss_in arguments }
{
    if 6 < arguments.count {
        return arguments.loss;
    }
    Some(0)
}

// The sink's node; 0, which no node has, where the argument cannot be read.
#[tactic(auto, unfolding(tree_program_model::specs::Output::sink_of))]
fn sink_of(arguments: Arguments) -> u64
    ensures { result ≡ sink_of arguments }
{
    arguments.sink.unwrap_or(0)
}

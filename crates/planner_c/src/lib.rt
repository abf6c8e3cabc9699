// The entries for C: a row of settings, from bytes to its answer and its text (document 01, 'Rows of settings'), and surveyed trees.
// include/planner.h declares them. They hand their arguments on to crates calls, row_calls and tree_calls, and need no proof file.
//
// No entry has a `requires`: each answers every argument, as equations with definitions of calls_model, row_calls_model and tree_calls_model
// say. What C must see to (pointers that are valid for their lengths, a lent buffer apart from the inputs) is in the header.
#![tactic(auto)]

ghost use Rattle.std.specs.Prelude.{◌≡◌, ◌≤◌};
ghost use Rattle.calls_model.specs.Calls.{left};
ghost use Rattle.row_calls_model.specs.Entries.{plan_row, check_row};
ghost use Rattle.row_calls_model.specs.Promise.{Promised};

use calls_model::Answer;

pub mod reason; // refusals in English
pub mod survey; // surveyed trees
pub mod exchange; // the table of exchange times

// Plans a row under a line of names, both without their LF, and writes nothing.
#[unsafe(no_mangle)]
pub extern "C" fn planner_check_row(names: &[u8], row: &[u8]) -> Answer
    ensures value { result ≡ check_row names.now row.now }
    ensures length_bound { result.length ≤ 4476 }
{
    row_calls::check_row(names, row)
}

// Plans a row under a line of names, both without their LF, and puts its text at the front of the lent buffer. A refused row, also one
// whose text is longer than the buffer, leaves every byte as it was.
#[unsafe(no_mangle)]
pub extern "C" fn planner_plan_row(names: &[u8], row: &[u8], out: &mut [u8]) -> Answer
    ensures out_after { left result out.new ≡ plan_row names.now row.now out.old }
    ensures promised { Promised row.now result out.new }
{
    row_calls::plan_row(names, row, out)
}

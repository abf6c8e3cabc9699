// Calls that plan a row of settings, from bytes to an answer and a text in a lent buffer (document 01, 'Rows of settings').
//
// No public function has a `requires`: each answers every argument, as equations with definitions of row_calls_model say. A refused row, also
// one whose text is longer than the buffer (number 8), leaves every byte as it was.
#![tactic(auto)]

ghost use Rattle.std.specs.Prelude.{◌≡◌, ◌≤◌};
ghost use Rattle.calls_model.specs.Calls.{left};
ghost use Rattle.row_calls_model.specs.Entries.{plan_row, check_row, explain_row};
ghost use Rattle.calls_model.specs.Reasons.{ReadAgain};
ghost use Rattle.row_calls_model.specs.Promise.{Promised};

use calls::{answer_of, leave, refused};
use calls_model::Answer;
use reason_print::put_verdict;
use refusals::Refusal;
use row_answer::{decide_named_row, plan_named_row};

// Plans a row under a line of names, both without their LF, and writes nothing.
pub fn check_row(names: &[u8], row: &[u8]) -> Answer
    ensures value { result ≡ check_row names.now row.now }
    ensures length_bound { result.length ≤ 4476 }
{
    let mut space = [0u8; 1];
    answer_of(plan_named_row(names, row, &mut space))
}

// Plans a row under a line of names, both without their LF, and puts its text at the front of the lent buffer. A refused row, also one
// whose text is longer than the buffer, leaves every byte as it was.
pub fn plan_row(names: &[u8], row: &[u8], out: &mut [u8]) -> Answer
    ensures out_after { left result out.new ≡ plan_row names.now row.now out.old }
    ensures promised { Promised row.now result out.new }
{
    match plan_named_row(names, row, out) {
        Ok(length) if out.len() < length => refused(Refusal::LentTooShort),
        planned => answer_of(planned),
    }
}

// Puts the line of a row under a line of names, both without their LF: why it is refused, or that it is planned. A buffer that is shorter
// than the line keeps every byte.
pub fn explain_row(names: &[u8], row: &[u8], out: &mut [u8]) -> Answer
    ensures out_after { left result out.new ≡ explain_row names.now row.now out.old }
    ensures read_again { ReadAgain result out.new }
{
    let mut table = [0u64; 1];
    let decided = decide_named_row(names, row, &mut table);
    let answer = answer_of(decided);
    let mut line = [0u8; reason_print::LONGEST];
    let n = put_verdict(&mut line, decided);
    leave(answer.number, answer.place, &line[..n], out)
}

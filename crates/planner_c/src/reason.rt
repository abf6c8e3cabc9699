// The entries for C that speak English (document 02, E1): the line of a row, the line of a refusal, and number and place of a line.
ghost use Rattle.std.specs.Prelude.{◌≡◌};
ghost use Rattle.reason_model.specs.Reading.{read_reason};
ghost use Rattle.calls_model.specs.Calls.{left};
ghost use Rattle.row_calls_model.specs.Entries.{explain_row};
ghost use Rattle.calls_model.specs.Reasons.{explain_refusal, numbered, ReadAgain};

use calls_model::{Answer, Numbered};

// Puts the line of a row under a line of names, both without their LF: why it is refused, or that it is planned. A buffer that is shorter
// than the line keeps every byte.
#[unsafe(no_mangle)]
pub extern "C" fn planner_explain_row(names: &[u8], row: &[u8], out: &mut [u8]) -> Answer
    ensures out_after { left result out.new ≡ explain_row names.now row.now out.old }
    ensures read_again { ReadAgain result out.new }
{
    row_calls::explain_row(names, row, out)
}

// Puts the line of a refusal that its number and place alone determine: 1, 8 and 9, at place 0. Nothing is put for any other.
#[unsafe(no_mangle)]
pub extern "C" fn planner_explain_refusal(number: u32, place: u32, out: &mut [u8]) -> Answer
    ensures { left result out.new ≡ explain_refusal number place out.old }
{
    calls::explain_refusal(number, place, out)
}

// Number and place of a line without its LF.
#[unsafe(no_mangle)]
pub extern "C" fn planner_read_reason(line: &[u8]) -> Numbered
    ensures { result ≡ numbered (read_reason line.now) }
{
    calls::read_reason(line)
}

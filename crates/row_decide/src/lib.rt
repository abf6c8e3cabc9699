// What is decided of a row (document 01, 'The tree and its loads' and 'The printed plan'): the first refusal of numbers 3 to 7, or the figures
// of its plan in a lent table, nine numbers a line, and demand 3 with them. The last number is DELAY of line S, the longest delay to the sink.
//
// The public function has no `requires`: settings may come that nobody checked, and a table of any length. It answers all of them, as
// equations with definitions of plan_model say. Inner functions presume what the checks before them have found; their `requires` say what.
#![tactic(auto)]

ghost use Rattle.std.specs.Prelude.{◌≡◌, ◌≤◌, length, IfOk, OnOk};
ghost use Rattle.std.proofs.lemmas.List.Edits.{sets};
ghost use Rattle.plan_model.specs.Plans.{answer, written};
ghost use Rattle.line_table_model.specs.Rows.{row_table};
ghost use Rattle.row_model.specs.Lines.{lines};
ghost use Rattle.row_model.specs.Outcome.{outcome_of};
ghost use Rattle.row_model.specs.Promise.{Keeps};
ghost use Rattle.row_plan_model.specs.Inner.{RowHeld};

use crate::lines::{put_downward, put_end, put_sink, put_upward};
use measure::Symbols;
use refusals::Refusal;
use row_plan_model::{DEPTHS, Filled, NO_LINK, Row};
use row_slots::check;
use settings_model::Settings;

mod lines; // of the plan, put one behind another

// Decides on any settings: their verdict, and, as far as there is room, the numbers of the plan's lines at the front of a lent table. Refused
// settings leave every number as it was. Where they are planned, demand 3 holds of the lines.
pub fn decide(s: Settings, table: &mut [u64]) -> Result<usize, Refusal>
    ensures value { result ≡ answer row_table (outcome_of s) }
    ensures length_bound { IfOk result (λ n. n ≤ 234) }
    ensures table_after { table.new ≡ sets table.old 0 (written row_table (outcome_of s)) }
    ensures keeps { OnOk result (Keeps s (lines s)) }
{
    let mut up = [NO_LINK; DEPTHS];
    let mut down = [NO_LINK; DEPTHS];
    match check(s, &mut up, &mut down) {
        Ok(links) => Ok(put_lines(
            table,
            &Row {
                s,
                links,
                up: &up,
                down: &down,
            },
        )),
        Err(refused) => Err(refused.refusal),
    }
}

// Puts the planned lines: E, U from H down to 1, D from 0 up, S; and answers how many numbers they have.
fn put_lines(table: &mut [u64], row: &Row) -> usize
    requires { RowHeld row.now }
    ensures value { result ≡ length (row_table (lines row.now.s)) }
    ensures upper_bound { result ≤ 234 }
    ensures table_after { table.new ≡ sets table.old 0 (row_table (lines row.now.s)) }
{
    let w = Filled {
        end: 0,
        delay: Symbols(0),
    };
    let w = put_end(table, w, row);
    let w = put_upward(table, w, row);
    let w = put_downward(table, w, row);
    put_sink(table, w, row).end
}

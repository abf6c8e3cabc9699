// Rows of settings from bytes to plans (document 01, 'Rows of settings'): the plan's text, its numbers in a table, or the first refusal of
// numbers 1 to 7. A row is read once, and what it spells is decided once.
//
// No public function has a `requires`: each answers every argument, as equations with definitions of row_answer_model say. A refused row
// leaves every byte and every number as it was.
#![tactic(auto)]

ghost use Rattle.std.specs.Prelude.{◌≡◌, cond, ◌≤◌, leb, length, IfOk};
ghost use Rattle.std.proofs.lemmas.List.Edits.{sets};
ghost use Rattle.plan_model.specs.Plans.{answer, written};
ghost use Rattle.report_model.specs.Text.{text};
ghost use Rattle.line_table_model.specs.Rows.{row_table};
ghost use Rattle.row_answer_model.specs.Outcomes.{row_outcome, named_outcome};

use refusals::Refusal;
use row_decide::decide;
use row_plan::{plan_of, plan_within};
use row_read::{read_named_row, read_row};
use row_read_model::Heading;

// The plan of a row without its LF, under a line of names: its text is put at the front of lent memory, as far as there is room.
pub fn plan_row(heading: Heading, row: &[u8], out: &mut [u8]) -> Result<usize, Refusal>
    ensures value { result ≡ answer text (row_outcome heading row.now) }
    ensures length_bound { IfOk result (λ n. n ≤ 4476) }
    ensures out_after { out.new ≡ sets out.old 0 (written text (row_outcome heading row.now)) }
{
    plan_of(read_row(heading, row)?, out)
}

// What is decided of it: its numbers are put at the front of a lent table, as far as there is room.
pub fn decide_row(heading: Heading, row: &[u8], table: &mut [u64]) -> Result<usize, Refusal>
    ensures value { result ≡ answer row_table (row_outcome heading row.now) }
    ensures table_after { table.new ≡ sets table.old 0 (written row_table (row_outcome heading row.now)) }
{
    decide(read_row(heading, row)?, table)
}

// The plan of a row and its line of names, both as bytes without their LF. A text that is longer than the lent memory is not put: every byte
// is then as it was.
pub fn plan_named_row(names: &[u8], row: &[u8], out: &mut [u8]) -> Result<usize, Refusal>
    ensures value { result ≡ answer text (named_outcome names.now row.now) }
    ensures length_bound { IfOk result (λ n. n ≤ 4476) }
    ensures out_after { out.new ≡ cond (leb (length (written text (named_outcome names.now row.now))) (length out.old))
        (sets out.old 0 (written text (named_outcome names.now row.now))) out.old }
{
    plan_within(read_named_row(names, row)?, out)
}

// What is decided of them: numbers in a lent table.
pub fn decide_named_row(names: &[u8], row: &[u8], table: &mut [u64]) -> Result<usize, Refusal>
    ensures value { result ≡ answer row_table (named_outcome names.now row.now) }
    ensures table_after { table.new ≡ sets table.old 0 (written row_table (named_outcome names.now row.now)) }
{
    decide(read_named_row(names, row)?, table)
}

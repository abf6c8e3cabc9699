// Plans of rows (document 01, 'The printed plan'): from settings to the plan's text, or the first refusal of numbers 3 to 7. A row is decided
// once, and its text is put at most once.
//
// No public function has a `requires`: settings may come that nobody checked, and lent memory of any length.
#![tactic(auto)]

ghost use Rattle.std.specs.Prelude.{◌≡◌, cond, ◌≤◌, min, leb, length, IfOk, OnOk};
ghost use Rattle.std.proofs.lemmas.List.Edits.{sets};
ghost use Rattle.plan_model.specs.Plans.{answer, written};
ghost use Rattle.report_model.specs.Text.{text};
ghost use Rattle.line_table_model.specs.Rows.{lines_in};
ghost use Rattle.row_model.specs.Lines.{lines};
ghost use Rattle.row_model.specs.Outcome.{outcome_of};
ghost use Rattle.row_model.specs.Promise.{Keeps};

use refusals::Refusal;
use report::LONGEST;
use row_decide::decide;
use row_print::{print, printed_length};
use settings_model::Settings;

// Plans any settings, and puts the plan's text at the front of lent memory, as far as there is room. Refused settings leave every byte
// as it was. Where they are planned, demand 3 holds of the lines.
pub fn plan_of(s: Settings, out: &mut [u8]) -> Result<usize, Refusal>
    ensures value { result ≡ answer text (outcome_of s) }
    ensures length_bound { IfOk result (λ n. n ≤ 4476) }
    ensures out_after { out.new ≡ sets out.old 0 (written text (outcome_of s)) }
    ensures keeps { OnOk result (Keeps s (lines s)) }
{
    let mut table = [0u64; 234];
    let numbers = decide(s, &mut table)?;
    Ok(print(&table, numbers / 9, out))
}

// The same, but a text that is longer than the lent memory is not put: every byte is then as it was. So no lent memory asks for the text's
// length alone, and nothing is printed.
pub fn plan_within(s: Settings, out: &mut [u8]) -> Result<usize, Refusal>
    ensures value { result ≡ answer text (outcome_of s) }
    ensures length_bound { IfOk result (λ n. n ≤ 4476) }
    ensures out_after { out.new ≡ cond (leb (length (written text (outcome_of s))) (length out.old))
        (sets out.old 0 (written text (outcome_of s))) out.old }
    ensures keeps { OnOk result (Keeps s (lines s)) }
{
    let mut table = [0u64; 234];
    let numbers = decide(s, &mut table)?;
    Ok(print_within(&table, numbers / 9, out))
}

// Puts the text of a table's lines where there is room for all of it, and answers its length. Where there is room for any text, its length
// is not computed first.
fn print_within(table: &[u64], lines: usize, out: &mut [u8]) -> usize
    ensures value { result ≡ length (text (lines_in table.now (min lines 26))) }
    ensures upper_bound { result ≤ 4476 }
    ensures out_after { out.new ≡ cond (leb result (length out.old))
        (sets out.old 0 (text (lines_in table.now (min lines 26)))) out.old }
{
    if LONGEST <= out.len() {
        return print(table, lines, out);
    }
    let length = printed_length(table, lines);
    if length <= out.len() {
        return print(table, lines, out);
    }
    length
}

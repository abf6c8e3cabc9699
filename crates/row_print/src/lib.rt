// The printed plan of a row from the numbers of its table, whatever the table holds (document 01, 'The printed plan').
//
// No public function has a `requires`: each takes a table of any length and any numbers.
#![tactic(auto)]

ghost use Rattle.std.specs.Prelude.{◌≡◌, ◌≤◌, min, length};
ghost use Rattle.std.proofs.lemmas.List.Edits.{sets};
ghost use Rattle.report_model.specs.Text.{text};
ghost use Rattle.line_table_model.specs.Rows.{lines_in};

use line_table::line_at;
use report::{put_header, put_line};
use report_length::line_length;

// No row has more lines: E, 12 U, 12 D and S.
const MOST_LINES: usize = 26;

// The header line's length.
const HEADER: usize = 56;

// Puts the text of the first lines of a table, of 26 at most, as far as there is room, and answers its length.
pub fn print(table: &[u64], lines: usize, out: &mut [u8]) -> usize
    ensures value { result ≡ length (text (lines_in table.now (min lines 26))) }
    ensures upper_bound { result ≤ 4476 }
    ensures out_after { out.new ≡ sets out.old 0 (text (lines_in table.now (min lines 26))) }
{
    let mut end = put_header(out);
    for i in 0..lines.min(MOST_LINES) {
        end += put_line(out, end, line_at(table, 9 * i));
    }
    end
}

// The length of that text: nothing is put.
pub fn printed_length(table: &[u64], lines: usize) -> usize
    ensures value { result ≡ length (text (lines_in table.now (min lines 26))) }
    ensures upper_bound { result ≤ 4476 }
{
    let mut end = HEADER;
    for i in 0..lines.min(MOST_LINES) {
        end += line_length(line_at(table, 9 * i)) + 1;
    }
    end
}

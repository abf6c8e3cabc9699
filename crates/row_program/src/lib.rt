// A whole input, name line and rows, and what is printed for it (document 01, 'The printed plan'; document 02, E1): piece by piece, so
// that a program can write each before the next is made; and the run of a program, from a reader to a writer.
//
// No public function has a `requires`: each answers every argument, as equations with definitions of row_program_model say.
#![tactic(auto)]

ghost use Rattle.std.specs.Prelude.{◌≡◌, ◌≤◌, length, [], ◌∷◌, ◌++◌, Some, IfSome, OnOk};
ghost use Rattle.std.specs.Io.KnownBytes.{Appends};
ghost use Rattle.std.proofs.lemmas.List.Edits.{sets};
ghost use Rattle.lines.specs.Text.{line_at, ended};
ghost use Rattle.refusals.specs.Conditions.{verdict};
ghost use Rattle.row_answer_model.specs.Outcomes.{row_outcome};
ghost use Rattle.reason_model.specs.Reasons.{verdict_line};
ghost use Rattle.row_program_model.specs.declared.Style.TheVariants.{Plans, Reasons};
ghost use Rattle.row_program_model.specs.declared.Progress.TheVariants.{Start};
ghost use Rattle.row_read_model.specs.Rows.{headed};
ghost use Rattle.program_model.specs.Printed.{too_long};
ghost use Rattle.row_program_model.specs.Output.{heading_in, printed, refusal_printed, output};
ghost use Rattle.row_program_model.specs.Steps.{opening, row_at, step, put, piece};

use buffer::put_bytes;
use input::read_full;
use lines::{Cursor, next_line, part};
use program_model::LIMIT;
use reason_print::put_verdict;
use refusals::Refusal;
use report::{LONGEST, put_refusal};
use row_answer::{decide_row, plan_row};
use row_program_model::{Piece, Progress, Style};
use row_read::{heading_of, is_other};
use row_read_model::Heading;
use std::io;
use std::io::{Read, Write};

// Reads an input and writes its output. A reader that fails is answered as its error, and nothing is written then. Where the bytes of the reader
// and of the writer are known, Ok says that the writer has the output of all that the reader had behind its own.
pub fn run<R: Read, W: Write>(style: Style, reader: &mut R, writer: &mut W) -> io::Result<()>
    ensures { OnOk result (IfSome (R.remaining reader.old) (λ input. Appends (W.contents writer.old) (W.contents writer.new) (output style input))) }
{
    // One byte more than an input may have: a longer one shows.
    let mut space = [0u8; 65537];
    let n = read_full(reader, &mut space)?;
    write_output(style, &space[..n], writer)
}

// Writes the output of an input, piece behind piece. A piece that cannot be written whole is the last, and why is answered. Where the bytes of
// the writer are known, Ok says that it has the whole output behind its own.
pub fn write_output<W: Write>(style: Style, input: &[u8], writer: &mut W) -> io::Result<()>
    ensures { OnOk result (Appends (W.contents writer.old) (W.contents writer.new) (output style input.now)) }
{
    let mut out = [0u8; LONGEST];
    let mut progress = begin();
    while let Some(piece) = next_piece(style, input, progress, &mut out) {
        writer.write_all(&out[..piece.length])?;
        progress = piece.next;
    }
    Ok(())
}

// Nothing printed yet.
pub fn begin() -> Progress
    ensures { result ≡ Start }
{
    Progress::Start
}

// Puts the next piece of the output at the front of lent memory, as far as there is room: 4,476 bytes are always enough. There is none where
// all was printed.
#[tactic(auto, unfolding(row_program_model::specs::Steps::step, row_program_model::specs::Steps::piece, row_program_model::specs::Steps::put))]
pub fn next_piece(style: Style, input: &[u8], from: Progress, out: &mut [u8]) -> Option<Piece>
    ensures value { result ≡ piece (step style input.now from) }
    ensures length_bound { IfSome result (λ r. r.length ≤ 4476) }
    ensures out_after { out.new ≡ sets out.old 0 (put (step style input.now from)) }
{
    let Progress::Rows { heading, at } = from else {
        return Some(open(style, input, out));
    };
    next_row(style, heading, input, at, out)
}

// The refusal of the input with number 9 or 1, or nothing for its name line.
#[tactic(auto, using(row_program_model::proofs::Inputs::opening_found), unfolding(row_program_model::specs::Steps::piece, row_program_model::specs::Steps::behind))]
fn open(style: Style, input: &[u8], out: &mut [u8]) -> Piece
    ensures value { Some result ≡ piece (Some (opening style input.now)) }
    ensures length_bound { result.length ≤ 4476 }
    ensures out_after { out.new ≡ sets out.old 0 (opening style input.now).bytes }
{
    let heading = heading_in(input);
    match check_input(heading, input) {
        Ok(()) => {
            let at = next_line(input, Cursor { at: 0 }).map_or(0, |line| line.next.at);
            Piece {
                length: 0,
                next: Progress::Rows { heading, at },
            }
        }
        Err(refusal) => {
            let length = put_refused(style, refusal, out);
            let at = input.len();
            Piece {
                length,
                next: Progress::Rows { heading, at },
            }
        }
    }
}

// Which line of names the first line is.
#[tactic(auto, using(row_program_model::proofs::Inputs::heading_found))]
fn heading_in(input: &[u8]) -> Heading
    ensures { result ≡ heading_in input.now }
{
    match next_line(input, Cursor { at: 0 }) {
        Some(line) => heading_of(part(input, line.start, line.end)),
        None => Heading::Other,
    }
}

// Numbers 9 and 1, in this order.
#[tactic(auto, unfolding(program_model::specs::Printed::too_long, row_read_model::specs::Rows::headed, refusals::specs::Conditions::first_broken))]
fn check_input(heading: Heading, input: &[u8]) -> Result<(), Refusal>
    ensures { result ≡ verdict (too_long input.now ++ headed heading) }
{
    if LIMIT < input.len() {
        return Err(Refusal::InputTooLong);
    }
    if is_other(heading) {
        return Err(Refusal::Names);
    }
    Ok(())
}

// The plan or the refusal of the row at a position, where there is one.
#[tactic(auto, unfolding(row_program_model::specs::Steps::row_at, row_program_model::specs::Steps::piece, row_program_model::specs::Steps::put))]
fn next_row(
    style: Style,
    heading: Heading,
    input: &[u8],
    at: usize,
    out: &mut [u8],
) -> Option<Piece>
    ensures value { result ≡ piece (row_at style heading input.now (line_at input.now at)) }
    ensures length_bound { IfSome result (λ r. r.length ≤ 4476) }
    ensures out_after { out.new ≡ sets out.old 0 (put (row_at style heading input.now (line_at input.now at))) }
{
    let line = next_line(input, Cursor { at })?;
    let length = put_row(style, heading, part(input, line.start, line.end), out);
    let at = line.next.at;
    Some(Piece {
        length,
        next: Progress::Rows { heading, at },
    })
}

// What is printed for a refusal.
#[tactic(auto, unfolding(row_program_model::specs::Output::printed, program_model::specs::Printed::printed))]
fn put_refused(style: Style, refusal: Refusal, out: &mut [u8]) -> usize
    ensures value { result ≡ length (refusal_printed style refusal) }
    ensures upper_bound { result ≤ 4476 }
    ensures out_after { out.new ≡ sets out.old 0 (refusal_printed style refusal) }
{
    match style {
        Style::Plans => put_refusal(out, refusal),
        Style::Reasons => put_spoken(Err(refusal), out),
    }
}

// A line of English and its LF.
#[tactic(auto, using(row_program_model::proofs::Inputs::ended_one, crate::proofs::Putting::put_ended, crate::proofs::Putting::length_ended))]
fn put_spoken(planned: Result<usize, Refusal>, out: &mut [u8]) -> usize
    ensures value { result ≡ length (ended (verdict_line planned ∷ [])) }
    ensures upper_bound { result ≤ 4476 }
    ensures out_after { out.new ≡ sets out.old 0 (ended (verdict_line planned ∷ [])) }
{
    let n = put_verdict(out, planned);
    n + put_bytes(out, n, b"\n")
}

// What is printed for a row.
fn put_row(style: Style, heading: Heading, row: &[u8], out: &mut [u8]) -> usize
    ensures value { result ≡ length (printed style (row_outcome heading row.now)) }
    ensures upper_bound { result ≤ 4476 }
    ensures out_after { out.new ≡ sets out.old 0 (printed style (row_outcome heading row.now)) }
{
    match style {
        Style::Plans => put_plan(heading, row, out),
        Style::Reasons => put_reason(heading, row, out),
    }
}

// The line of a row. It is decided, and nothing of it printed.
#[tactic(auto, using(row_program_model::proofs::Inputs::spoken_answer))]
fn put_reason(heading: Heading, row: &[u8], out: &mut [u8]) -> usize
    ensures value { result ≡ length (printed Reasons (row_outcome heading row.now)) }
    ensures upper_bound { result ≤ 4476 }
    ensures out_after { out.new ≡ sets out.old 0 (printed Reasons (row_outcome heading row.now)) }
{
    let mut table = [0u64; 1];
    put_spoken(decide_row(heading, row, &mut table), out)
}

// The plan of a row, or its R line.
#[tactic(auto, using(program_model::proofs::PrintedAnswers::answered), unfolding(row_program_model::specs::Output::printed))]
fn put_plan(heading: Heading, row: &[u8], out: &mut [u8]) -> usize
    ensures value { result ≡ length (printed Plans (row_outcome heading row.now)) }
    ensures upper_bound { result ≤ 4476 }
    ensures out_after { out.new ≡ sets out.old 0 (printed Plans (row_outcome heading row.now)) }
{
    match plan_row(heading, row, out) {
        Ok(length) => length,
        Err(refusal) => put_refusal(out, refusal),
    }
}

// The printed plan (document 01, 'The printed plan'; document 02, E3): the text of a plan's lines, and of a refusal.
//
// No public function has a `requires`. Each puts its text into lent memory as far as there is room, leaves all other bytes as they
// were, and answers the text's whole length, as equations with definitions of report_model say. A plan is put piece by piece: its header
// line at the front, and each line behind the text before it.
#![tactic(auto)]

ghost use Rattle.std.specs.Prelude.{◌≡◌, [], ◌∷◌, ◌++◌, ◌≤◌, length};
ghost use Rattle.std.proofs.lemmas.List.Edits.{sets};
ghost use Rattle.report_model.specs.Text.{header, numbers, line_text, refusal_text};
ghost use Rattle.report_model.specs.TreeText.{tree_header, node_text};

use crate::line::{letter_of, put_row};
use buffer::put_bytes;
use plan_model::{Line, NodeLine};
use refusals::Refusal;

mod line; // one line of a plan, and that of a refusal

// No text of a plan is longer: a header line of 56 bytes, and 26 lines of at most 170.
pub const LONGEST: usize = 4476;

// No text of a surveyed tree's plan is longer: a header line of 62 bytes, and 254 lines of at most 191.
pub const LONGEST_TREE: usize = 48576;

// Puts the header line, and answers its length.
pub fn put_header(out: &mut [u8]) -> usize
    ensures value { result ≡ 56 }
    ensures out_after { out.new ≡ sets out.old 0 (header ++ 10 ∷ []) }
{
    put_bytes(
        out,
        0,
        b"KIND DEPTH RATE BURST SLOTS FRAMES LATENCY BUFFER DELAY\n",
    )
}

// Puts the header line of a surveyed tree's plan, and answers its length. Stays as it is: this one and the one above are one call each,
// and differ in their text alone.
pub fn put_tree_header(out: &mut [u8]) -> usize
    ensures value { result ≡ 62 }
    ensures out_after { out.new ≡ sets out.old 0 (tree_header ++ 10 ∷ []) }
{
    put_bytes(
        out,
        0,
        b"KIND DEPTH RATE BURST SLOTS FRAMES LATENCY BUFFER DELAY ROUTE\n",
    )
}

// Puts a line and its LF at a position, as far as there is room, and answers how long they are.
pub fn put_line(out: &mut [u8], at: usize, line: Line) -> usize
    ensures value { result ≡ length (line_text line ++ 10 ∷ []) }
    ensures upper_bound { result ≤ 170 }
    ensures out_after { out.new ≡ sets out.old at (line_text line ++ 10 ∷ []) }
{
    put_row(out, at, letter_of(line.kind), &numbers_of(line), &[])
}

// Puts a node's line and its LF at a position, as far as there is room, and answers how long they are.
pub fn put_node_line(out: &mut [u8], at: usize, node: NodeLine) -> usize
    ensures value { result ≡ length (node_text node ++ 10 ∷ []) }
    ensures upper_bound { result ≤ 191 }
    ensures out_after { out.new ≡ sets out.old at (node_text node ++ 10 ∷ []) }
{
    let line = node.line;
    let route = [node.route.0];
    put_row(out, at, letter_of(line.kind), &numbers_of(line), &route)
}

// Puts the line of a refusal: R, number and place.
pub fn put_refusal(out: &mut [u8], refusal: Refusal) -> usize
    ensures value { result ≡ length (refusal_text refusal) }
    ensures upper_bound { result ≤ 4476 }
    ensures out_after { out.new ≡ sets out.old 0 (refusal_text refusal) }
{
    let number = u64::from(refusal.number());
    let place = u64::from(refusal.place());
    put_row(out, 0, b'R', &[number, place], &[])
}

// The numbers of a line, in the columns' order behind KIND.
#[tactic(auto, unfolding(report_model::specs::Text::numbers))]
pub fn numbers_of(line: Line) -> [u64; 8]
    ensures { result ≡ numbers line }
{
    let figures = line.figures;
    [
        line.depth,
        figures.rate.0,
        figures.burst.0,
        figures.slots.0,
        figures.frames.0,
        figures.latency.0,
        figures.buffer.0,
        figures.delay.0,
    ]
}

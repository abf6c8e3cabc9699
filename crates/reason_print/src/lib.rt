// Refusals in English, one line each (document 02, E1).
//
// No public function has a `requires`: each answers every argument, as equations with definitions of reason_model say. Lines are put into
// lent memory as far as there is room, at its front and without LF.
#![tactic(auto)]

ghost use Rattle.std.specs.Prelude.{◌≡◌, ◌≤◌, length};
ghost use Rattle.std.proofs.lemmas.List.Edits.{sets};
ghost use Rattle.reason_model.specs.Reasons.{reason, verdict_line};

use crate::filling::put_filled;
use buffer::put_bytes;
use reason_table::phrases::phrase;
use refusals::Refusal;
use refusals::cases::facts_of;

mod filling; // a phrase with its gaps filled

// No line is longer.
pub const LONGEST: usize = 160;

// Puts the line of a refusal, and answers its length.
#[tactic(auto, using(reason_model::proofs::Sorts::line_bound), unfolding(reason_model::specs::Reasons::reason, refusals::specs::Refusals::place_of))]
pub fn put_reason(out: &mut [u8], refusal: Refusal) -> usize
    ensures value { result ≡ length (reason refusal) }
    ensures upper_bound { result ≤ 160 }
    ensures out_after { out.new ≡ sets out.old 0 (reason refusal) }
{
    let facts = facts_of(refusal);
    put_filled(
        out,
        phrase(facts.sort),
        facts.place,
        &[facts.first, facts.second],
    )
}

// Puts the line of a row that was refused, or that it is planned, and answers its length. What is answered of a planned row plays no part.
#[tactic(auto, unfolding(reason_model::specs::Reasons::verdict_line, decimal_model::specs::Ascii::ascii))]
pub fn put_verdict<T: Copy>(out: &mut [u8], planned: Result<T, Refusal>) -> usize
    ensures value { result ≡ length (verdict_line planned) }
    ensures upper_bound { result ≤ 160 }
    ensures out_after { out.new ≡ sets out.old 0 (verdict_line planned) }
{
    match planned {
        Ok(_) => put_bytes(out, 0, b"The row is planned."),
        Err(refusal) => put_reason(out, refusal),
    }
}

// Number and place of a refusal, had again from its line in English (document 02, E1).
//
// The public function has no `requires`: it answers every line, as an equation with a definition of reason_model says.
#![tactic(auto)]

ghost use Rattle.std.specs.Prelude.{◌≡◌};
ghost use Rattle.reason_model.specs.Reading.{read_reason};

use crate::matching::match_sort;
use reason_model::Reason;
use refusals::table::{SORTS, number_at};

mod numbers; // numbers in decimal, of any length
mod names; // columns by their names
mod matching; // a line against a phrase

// Number and place of the refusal whose line, without its LF, it is; none where it is no such line.
pub fn read_reason(line: &[u8]) -> Option<Reason>
    ensures { result ≡ read_reason line.now }
{
    for sort in 0..SORTS {
        if let Some(place) = match_sort(line, sort) {
            return Some(Reason {
                number: number_at(sort),
                place,
            });
        }
    }
    None
}

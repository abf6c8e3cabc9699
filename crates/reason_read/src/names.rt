// The column that a word is the name of.
ghost use Rattle.std.specs.Prelude.{◌≡◌};
ghost use Rattle.reason_model.specs.Reading.{unnamed, column_in};

use crate::numbers::place_in;
use reason_table::columns::name;

// The column that a word is the name of.
pub(crate) fn column_in(word: &[u8]) -> Option<u32>
    ensures { result ≡ column_in word.now }
{
    for column in 1..=13 {
        if name(column) == Some(word) {
            return Some(column);
        }
    }
    unnamed(place_in(word))
}

// A number that was read for a column, where that column has no name.
#[tactic(auto, unfolding(reason_model::specs::Reading::unnamed))]
fn unnamed(number: Option<u32>) -> Option<u32>
    ensures { result ≡ unnamed number }
{
    number.filter(|column| name(*column).is_none())
}

// Numbers in decimal, of any length.
ghost use Rattle.std.specs.Prelude.{◌≡◌};
ghost use Rattle.decimal_model.specs.Number.{zero_led};
ghost use Rattle.reason_model.specs.Reading.{numeral, place_in};

use decimal::all_digits;

// Whether a word is a number: digits alone, at least one, and no leading zero except 0 itself.
#[tactic(auto, unfolding(reason_model::specs::Reading::numeral))]
pub(crate) fn is_numeral(word: &[u8]) -> bool
    ensures { result ≡ numeral word.now }
{
    !word.is_empty() && !zero_led(word) && all_digits(word)
}

// Whether the first byte is a zero that others follow.
#[tactic(auto, unfolding(decimal_model::specs::Number::zero_led))]
fn zero_led(word: &[u8]) -> bool
    ensures { result ≡ zero_led word.now }
{
    matches!(word, [b'0', _, ..])
}

// The place that a word is, where it is a number of 32 bits.
#[tactic(auto, using(crate::proofs::Places::read_whole))]
pub(crate) fn place_in(word: &[u8]) -> Option<u32>
    ensures { result ≡ place_in word.now }
{
    if !is_numeral(word) {
        return None;
    }
    let mut place = 0u32;
    for digit in word {
        place = place
            .checked_mul(10)?
            .checked_add(u32::from(digit.saturating_sub(b'0')))?;
    }
    Some(place)
}

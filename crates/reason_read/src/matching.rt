// A line against a phrase, part by part.
ghost use Rattle.std.specs.Prelude.{◌≡◌, map, ◌≤◌, length, Some};
ghost use Rattle.std.specs.List.{prefix_len};
ghost use Rattle.refusals.specs.Table.{sort_at, place_said};
ghost use Rattle.reason_model.specs.Reasons.{phrase_at, part_of};
ghost use Rattle.reason_model.specs.Reading.{word_byte, extent, meant, matched};

use crate::names::column_in;
use crate::numbers::{is_numeral, place_in};
use reason_table::phrases::phrase;
use refusals::table::place_at;

// The place that a line has, where it is the phrase of this sort with its gaps filled.
pub(crate) fn match_sort(line: &[u8], sort: usize) -> Option<u32>
    ensures { result ≡ matched (map part_of (phrase_at sort)) (Some (place_said (sort_at sort).place)) line.now }
{
    match_phrase(line, phrase(sort), place_at(sort))
}

// The place that a line has, where it is this phrase with its gaps filled, and that place where the phrase does not say it.
fn match_phrase(line: &[u8], phrase: &[u8], place: u32) -> Option<u32>
    ensures { result ≡ matched (map part_of phrase.now) (Some place) line.now }
{
    let mut place = place;
    let mut rest = line;
    for part in phrase {
        let (read, behind) = rest.split_at(extent(rest, *part));
        place = meaning(read, *part, place)?;
        rest = behind;
    }
    rest.is_empty().then_some(place)
}

// The place after bytes were read for a part, where it was that before.
#[tactic(auto, using(reason_model::proofs::Words::told_same), unfolding(reason_model::specs::Reasons::part_of, reason_model::specs::Reading::meant))]
fn meaning(word: &[u8], part: u8, place: u32) -> Option<u32>
    ensures { result ≡ meant place (part_of part) word.now }
{
    match part {
        b'@' => column_in(word),
        b'%' => place_in(word),
        b'#' => is_numeral(word).then_some(place),
        byte => (word == [byte].as_slice()).then_some(place),
    }
}

// How many bytes at the front of a text are a part's: one, or a word.
#[tactic(auto, using(reason_model::proofs::Words::word_front), unfolding(reason_model::specs::Reasons::part_of, reason_model::specs::Reading::extent))]
fn extent(text: &[u8], part: u8) -> usize
    ensures value { result ≡ extent (part_of part) text.now }
    ensures upper_bound { result ≤ length text.now }
{
    match part {
        b'@' | b'%' | b'#' => word_length(text),
        _ => text.len().min(1),
    }
}

// How many bytes at the front of a text are of its first word.
fn word_length(text: &[u8]) -> usize
    ensures value { result ≡ prefix_len word_byte text.now }
    ensures upper_bound { result ≤ length text.now }
{
    text.iter().take_while(|byte| is_word_byte(**byte)).count()
}

// A digit or a capital.
#[tactic(auto, unfolding(reason_model::specs::Reading::word_byte))]
fn is_word_byte(byte: u8) -> bool
    ensures { result ≡ word_byte byte }
{
    byte.is_ascii_digit() || byte.is_ascii_uppercase()
}

// A phrase with its gaps filled.
ghost use Rattle.std.specs.Prelude.{◌≡◌, map, ◌≤◌, length, get_or};
ghost use Rattle.std.proofs.lemmas.List.Edits.{sets};
ghost use Rattle.reason_model.specs.Reasons.{part_of, part_text, filled};
ghost use Rattle.reason_model.specs.Inner.{most};

use buffer::put_byte;
use decimal::put_number;
use reason_table::columns::put_column;

// Puts a phrase at the front, with the place and the values in its gaps, 0 where there are no more, and answers how long it is then.
pub(crate) fn put_filled(out: &mut [u8], phrase: &[u8], place: u32, values: &[u64]) -> usize
    requires { length phrase.now ≤ 128 }
    ensures value { result ≡ length (filled place (map part_of phrase.now) values.now) }
    ensures upper_bound { result ≤ most (map part_of phrase.now) }
    ensures out_after { out.new ≡ sets out.old 0 (filled place (map part_of phrase.now) values.now) }
{
    let mut at = 0;
    let mut used = 0;
    for part in phrase {
        at += put_part(out, at, *part, place, values, used);
        used += usize::from(*part == b'#');
    }
    at
}

// Puts what stands for a part of a phrase at a position, after so many values were used, and answers how long it is.
#[tactic(auto, unfolding(reason_model::specs::Reasons::part_of, reason_model::specs::Reasons::part_text))]
fn put_part(out: &mut [u8], at: usize, part: u8, place: u32, values: &[u64], used: usize) -> usize
    ensures value { result ≡ length (part_text place (get_or values.now used 0) (part_of part)) }
    ensures out_after { out.new ≡ sets out.old at (part_text place (get_or values.now used 0) (part_of part)) }
{
    match part {
        b'@' => put_column(out, at, place),
        b'%' => put_number(out, at, u64::from(place)),
        b'#' => put_number(out, at, values.get(used).copied().unwrap_or(0)),
        byte => {
            put_byte(out, at, 0, byte);
            1
        }
    }
}

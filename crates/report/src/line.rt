// One line of a plan, and that of a refusal: a letter, numbers in decimal, each behind a space, and LF.
ghost use Rattle.std.specs.Prelude.{◌≡◌, ◌∷◌, ◌++◌, ◌+◌, ◌*◌, ◌^◌, ◌≤◌, ◌<◌, length};
ghost use Rattle.std.proofs.lemmas.List.Edits.{sets};
ghost use Rattle.decimal_model.specs.Decimal.{decimal};
ghost use Rattle.plan_model.specs.Lines.{letter};
ghost use Rattle.report_model.specs.Inner.{spaced, row};

use buffer::put_byte;
use decimal::put_number;
use plan_model::Kind;

// Puts a letter, numbers, more numbers and LF at a position, as far as there is room, and answers how long they are.
pub(crate) fn put_row(out: &mut [u8], at: usize, letter: u8, numbers: &[u64], more: &[u64]) -> usize
    requires { length numbers.now + length more.now ≤ 9 }
    ensures value { result ≡ length (row letter (numbers.now ++ more.now)) }
    ensures upper_bound { result ≤ 2 + 21 * (length numbers.now + length more.now) }
    ensures out_after { out.new ≡ sets out.old at (row letter (numbers.now ++ more.now)) }
{
    // A position behind the end counts as the end, where there is no room either: so no position behind it wraps.
    let start = at.min(out.len());
    put_byte(out, start, 0, letter);
    let end = put_spaced(out, start + 1, numbers);
    let end = put_spaced(out, end, more);
    put_byte(out, end, 0, b'\n');
    end + 1 - start
}

// Puts numbers at a position, each behind a space, and answers the position behind them, which must not wrap.
fn put_spaced(out: &mut [u8], at: usize, numbers: &[u64]) -> usize
    requires { at + 21 * length numbers.now < 2 ^ 64 }
    ensures value { result ≡ at + length (spaced numbers.now) }
    ensures upper_bound { result ≤ at + 21 * length numbers.now }
    ensures out_after { out.new ≡ sets out.old at (spaced numbers.now) }
{
    let mut end = at;
    for number in numbers {
        end = put_one(out, end, *number);
    }
    end
}

// Puts a space and a number in decimal at a position, and answers the position behind them, which must not wrap.
fn put_one(out: &mut [u8], at: usize, n: u64) -> usize
    requires { at + 21 < 2 ^ 64 }
    ensures value { result ≡ at + length (32 ∷ decimal n) }
    ensures upper_bound { result ≤ at + 21 }
    ensures out_after { out.new ≡ sets out.old at (32 ∷ decimal n) }
{
    put_byte(out, at, 0, b' ');
    at + 1 + put_number(out, at + 1, n)
}

// KIND's letter.
#[tactic(auto, unfolding(plan_model::specs::Lines::letter))]
pub(crate) fn letter_of(kind: Kind) -> u8
    ensures { result ≡ letter kind }
{
    match kind {
        Kind::EndNode => b'E',
        Kind::Upward => b'U',
        Kind::Downward => b'D',
        Kind::Sink => b'S',
    }
}

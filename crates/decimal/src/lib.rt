// Decimal numbers in ASCII, read and written.
//
// No public function has a `requires`: each answers every argument, as equations with definitions of decimal_model say.
#![tactic(auto)]

ghost use Rattle.std.specs.Prelude.{◌≡◌, ◌+◌, ◌≤◌, ◌<◌, length, set};
ghost use Rattle.std.proofs.lemmas.List.Edits.{sets};
ghost use Rattle.decimal_model.specs.Number.{digit, digits, shaped, number_in};
ghost use Rattle.decimal_model.specs.Decimal.{decimal};
ghost use Rattle.decimal_model.specs.Inner.{four};

use buffer::put_byte;

// The number that all of s spells, if it is one: 1 to 4 digits, no leading zero except 0 itself, and no other byte.
pub fn read_number(s: &[u8]) -> Option<u64>
    ensures { result ≡ number_in s.now }
{
    if !is_shaped(s) {
        return None;
    }
    let mut v: u64 = 0;
    for byte in s {
        if !byte.is_ascii_digit() {
            return None;
        }
        v = 10 * v + u64::from(*byte - b'0');
    }
    Some(v)
}

// 1 to 4 bytes, of which the first is no zero that others follow.
fn is_shaped(s: &[u8]) -> bool
    ensures { result ≡ shaped s.now }
{
    match s {
        [_] => true,
        [first, _, ..] => s.len() <= 4 && *first != b'0',
        [] => false,
    }
}

// An ASCII digit, 0 to 9.
pub fn is_digit(b: u8) -> bool
    ensures { result ≡ digit b }
{
    b.is_ascii_digit()
}

// Whether all bytes are digits.
pub fn all_digits(text: &[u8]) -> bool
    ensures { result ≡ digits text.now }
{
    text.iter().all(u8::is_ascii_digit)
}

// Puts a number in decimal at a position of lent memory, as far as there is room, and answers how many digits it has. Four digits are put
// at a time, the last four first: one division for four digits is faster than one for each.
pub fn put_number(out: &mut [u8], at: usize, n: u64) -> usize
    ensures value { result ≡ length (decimal n) }
    ensures out_after { out.new ≡ sets out.old at (decimal n) }
{
    if n < 10 {
        put_digit(out, at, 0, n);
        return 1;
    }
    let count = digits_of(n);
    let mut rest = n;
    let mut k = count;
    while 10000 <= rest {
        k -= 4;
        put_four(out, at, k, rest % 10000);
        rest /= 10000;
    }
    put_few(out, at, rest);
    count
}

// How many digits a number has.
#[tactic(auto, using(decimal_model::proofs::Putting::length_small, decimal_model::proofs::Putting::length_by_power))]
pub fn digits_of(n: u64) -> usize
    ensures { result ≡ length (decimal n) }
{
    match n.checked_ilog10() {
        Some(k) => k as usize + 1,
        None => 1,
    }
}

// Puts the rest, a number of up to four digits, in decimal at a position.
fn put_few(out: &mut [u8], at: usize, rest: u64)
    requires { rest < 10000 }
    ensures { out.new ≡ sets out.old at (decimal rest) }
{
    match rest {
        0..=9 => put_digit(out, at, 0, rest),
        10..=99 => {
            put_digit(out, at, 0, rest / 10);
            put_digit(out, at, 1, rest % 10);
        }
        100..=999 => {
            put_digit(out, at, 0, rest / 100);
            put_digit(out, at, 1, rest / 10 % 10);
            put_digit(out, at, 2, rest % 10);
        }
        _ => put_four(out, at, 0, rest),
    }
}

// Puts four digits, zeros in front included, k places behind a position. (A number of 64 bits has at most 20 digits.)
fn put_four(out: &mut [u8], at: usize, k: usize, n: u64)
    requires k_bound { k ≤ 16 }
    requires n_bound { n < 10000 }
    ensures { out.new ≡ sets out.old (at + k) (four n) }
{
    let high = n / 100;
    let low = n % 100;
    put_digit(out, at, k, high / 10);
    put_digit(out, at, k + 1, high % 10);
    put_digit(out, at, k + 2, low / 10);
    put_digit(out, at, k + 3, low % 10);
}

// Puts a digit k places behind a position.
fn put_digit(out: &mut [u8], at: usize, k: usize, d: u64)
    requires { d < 10 }
    ensures { out.new ≡ set out.old (at + k) (48 + d) }
{
    put_byte(out, at, k, b'0' + d as u8);
}

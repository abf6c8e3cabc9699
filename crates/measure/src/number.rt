// Bare numbers of 64 bits, for what is computed within a measure or from one to another. None of these wraps.
ghost use Rattle.std.specs.Prelude.{◌≡◌, ◌+◌, ◌-◌, ◌*◌, ◌^◌, ◌<◌, ltb};
ghost use Rattle.std.specs.Option.{SomeIff};
ghost use Rattle.measure.specs.Measures.{up_to_64, rounded_up};

// a + b, or the largest number of 64 bits.
pub fn sum(a: u64, b: u64) -> u64
    ensures { result ≡ up_to_64 (a + b) }
{
    a.saturating_add(b)
}

// a * b, or the largest number of 64 bits.
pub fn product(a: u64, b: u64) -> u64
    ensures { result ≡ up_to_64 (a * b) }
{
    checked_product(a, b).unwrap_or(u64::MAX)
}

// Whether a * b fits 64 bits.
pub fn product_fits(a: u64, b: u64) -> bool
    ensures { result ≡ ltb (a * b) (2 ^ 64) }
{
    checked_product(a, b).is_some()
}

// a * b, where it fits 64 bits. As the library's checked_mul, but that divides, which is slow; 128 bits hold each product.
pub fn checked_product(a: u64, b: u64) -> Option<u64>
    ensures { SomeIff result (a * b < 2 ^ 64) (a * b) }
{
    u64::try_from(u128::from(a) * u128::from(b)).ok()
}

// a - b, or 0 where b is more.
pub fn rest(a: u64, b: u64) -> u64
    ensures { result ≡ a - b }
{
    a.saturating_sub(b)
}

// a / b rounded up, 0 where b is 0.
#[tactic(auto, using(crate::proofs::Rounding::up_by_none, crate::proofs::Rounding::up_by_some))]
pub fn rounded_up(a: u64, b: u64) -> u64
    ensures { result ≡ rounded_up a b }
{
    if b == 0 { 0 } else { a.div_ceil(b) }
}

// A reservation of k slots (a guaranteed time slot): how many exchanges it holds, how many slots a rate needs, how long a frame
// can wait for it (document 01, 'Time on the air').
//
// No public function has a `requires`: each answers every argument, as an equation with a definition of superframe_model says.
#![tactic(auto)]

ghost use Rattle.std.specs.Prelude.{◌≡◌, ◌*◌, ◌<◌, ◌^◌};
ghost use Rattle.measure.specs.Measures.{up_to_64, within, largest, frames, slots};
ghost use Rattle.superframe_model.specs.Reservation.{frames_in, rate, slots_for, Smallest, latency};

use measure::number::{checked_product, product, rest, rounded_up};
use measure::{Frames, Rate, Slots, Symbols};

// m: the exchanges of x symbols each that k slots of s symbols hold. Where k times s passes 64 bits: none.
#[tactic(auto, using(superframe_model::proofs::ReservationLaws::reservations), unfolding(superframe_model::specs::Reservation::frames_in))]
pub fn frames_in(k: Slots, s: Symbols, x: Symbols) -> Frames
    ensures { result ≡ within (k.0 * s.0) (frames_in k s x) (frames 0) }
{
    match checked_product(k.0, s.0) {
        Some(symbols) if x.0 != 0 => Frames(symbols / x.0),
        _ => Frames(0),
    }
}

// The rate of a reservation that holds m exchanges: it comes once in each beacon interval.
#[tactic(auto, unfolding(superframe_model::specs::Reservation::rate))]
pub fn rate_of(m: Frames) -> Rate
    ensures { result ≡ rate m }
{
    Rate(m.0)
}

// k: the smallest count of slots that holds the rate. Where the rate times x passes 64 bits: more than any superframe has.
#[tactic(auto, unfolding(superframe_model::specs::Reservation::slots_for))]
pub fn slots_for(load: Rate, s: Symbols, x: Symbols) -> Slots
    ensures value { result ≡ within (load.0 * x.0) (slots_for load s x) (slots largest) }
    ensures smallest { 0 < s.0 → 0 < x.0 → load.0 * x.0 < 2 ^ 64 → Smallest load s x result }
{
    match checked_product(load.0, x.0) {
        Some(symbols) => Slots(rounded_up(symbols, s.0)),
        None => Slots(u64::MAX),
    }
}

// T: the latency of m exchanges in each interval. For m = 0, a reservation that serves nothing, what the formula gives.
#[tactic(auto, unfolding(superframe_model::specs::Reservation::latency))]
pub fn latency_of(interval: Symbols, m: Frames, x: Symbols) -> Symbols
    ensures { result.0 ≡ up_to_64 (latency interval m x).0 }
{
    match m.0 {
        0 => interval.plus(x).plus(x),
        1 => interval.plus(x),
        n => Symbols(rest(interval.0, product(n - 2, x.0))),
    }
}

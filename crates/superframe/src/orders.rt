// What the beacon order BO and the superframe order SO set, and what a router's beacon takes of its superframe (document 02, E2).
// Document 01 has orders from 0 to 14; one above counts as 14.
ghost use Rattle.std.specs.Prelude.{◌≡◌, min, ◌+◌, ◌*◌, ◌^◌, ◌<◌};
ghost use Rattle.measure.specs.Measures.{up_to_64, within, largest, slots};
ghost use Rattle.superframe_model.specs.Orders.{beacon_interval, superframe, slot, beacon_length, contention, reservable};

use measure::number::{product, rest, rounded_up, sum};
use measure::{Slots, Symbols};

// BI: from one beacon of a router to its next.
#[tactic(auto, unfolding(superframe_model::specs::Orders::beacon_interval))]
pub fn beacon_interval(bo: u64) -> Symbols
    ensures { result ≡ beacon_interval (min bo 14) }
{
    Symbols(doubled(960, bo))
}

// SD: the active part of an interval, 16 slots.
#[tactic(auto, unfolding(superframe_model::specs::Orders::superframe))]
pub fn superframe_duration(so: u64) -> Symbols
    ensures { result ≡ superframe (min so 14) }
{
    Symbols(doubled(960, so))
}

// S: one slot of a superframe.
#[tactic(auto, unfolding(superframe_model::specs::Orders::slot))]
pub fn slot_length(so: u64) -> Symbols
    ensures { result ≡ slot (min so 14) }
{
    Symbols(doubled(60, so))
}

// What lasts so long at order 0, at another order: twice as long for each.
fn doubled(symbols: u64, order: u64) -> u64
    requires { symbols < 2048 }
    ensures { result ≡ symbols * 2 ^ (min order 14) }
{
    symbols << order.min(14)
}

// The beacon of a router with g reservations in its superframe.
#[tactic(auto, unfolding(superframe_model::specs::Orders::beacon_length))]
pub fn beacon_length(g: u64) -> Symbols
    ensures { result.0 ≡ up_to_64 (beacon_length g).0 }
{
    if g == 0 {
        Symbols(38)
    } else {
        Symbols(sum(40, product(6, g)))
    }
}

// The slots at the start of its superframe that its beacon and contention keep. Where these symbols pass 64 bits: more than any
// superframe has.
#[tactic(auto, unfolding(superframe_model::specs::Orders::contention))]
pub fn contention_slots(so: u64, g: u64) -> Slots
    ensures { result ≡ within (440 + (beacon_length g).0) (contention (min so 14) g) (slots largest) }
{
    match beacon_length(g).0.checked_add(440) {
        Some(symbols) => Slots(rounded_up(symbols, slot_length(so).0)),
        None => Slots(u64::MAX),
    }
}

// L: the slots of its superframe that may be reserved, 0 where nothing is left.
#[tactic(auto, using(superframe_model::proofs::OrderLaws::leftovers), unfolding(superframe_model::specs::Orders::reservable))]
pub fn reservable_slots(so: u64, g: u64) -> Slots
    ensures { result ≡ reservable (min so 14) g }
{
    Slots(rest(16, contention_slots(so, g).0))
}

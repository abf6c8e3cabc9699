// The links of a row: the load that enters each, and the reservation that its rate needs. What is required here `sound_links` meets.
ghost use Rattle.std.specs.Prelude.{◌≡◌, ◌≤◌, ◌<◌, ◌^◌};
ghost use Rattle.links.specs.Answers.{Timed};
ghost use Rattle.row_model.specs.Times.{row_timing};
ghost use Rattle.row_model.specs.Loads.{sensor, near};
ghost use Rattle.row_model.specs.Bounds.{Sound, Bounded};
ghost use Rattle.row_plan_model.specs.Inner.{HeldFrom, HeldBelow, coming, joined, left_by, link_of, link_up, link_down};

use crate::table::link_at;
use links::{Load, Reservation, Timing};
use measure::{Frames, Rate};
use row_plan_model::{DEPTHS, Link, NO_LOAD};
use settings_model::Settings;

// The load of a sensor.
pub(crate) fn sensor_load(s: Settings, t: Timing) -> Load
    requires sound { Sound s }
    requires t_value { t ≡ row_timing s }
    ensures { result ≡ sensor s }
{
    Load {
        rate: Rate(s.rate),
        burst: measure::burst_of(Frames(s.burst), t.interval),
    }
}

// What enters every router: its own sensor's load, and those that left its end nodes.
pub(crate) fn near_load(s: Settings, made: Load, end: Reservation) -> Load
    requires sound { Sound s }
    requires made_value { made ≡ sensor s }
    requires end_value { end ≡ (link_of (row_timing s) (sensor s)).reservation }
    ensures { result ≡ near s }
{
    made.times(s.own).plus(made.after(end).times(s.ne))
}

// The link that a load enters.
pub(crate) fn link_for(t: Timing, load: Load) -> Link
    ensures { Timed t → load.rate.0 < 2 ^ 40 → result ≡ link_of t load }
{
    let reservation = links::reservation_for(t, load.rate);
    Link { load, reservation }
}

// The link of a router: what enters every router, n loads that left the links below and what comes down enter it.
fn joined_link(t: Timing, local: Load, below: Link, n: u64, down: Load) -> Link
    ensures { Timed t → Bounded (left_by below) → Bounded (joined local (left_by below) n down) → result ≡ link_of t (joined local (left_by below) n down) }
{
    let left = below.load.after(below.reservation);
    link_for(t, local.plus(left.times(n)).plus(down))
}

// Sets the upward links of depths H to i, by recursion from depth H towards the root, and answers that of depth i. Stays as it is: document 01
// asks for this recursion by name.
pub(crate) fn upward_links(
    s: Settings,
    t: Timing,
    local: Load,
    i: u64,
    up: &mut [Link; DEPTHS],
) -> Link
    requires sound { Sound s }
    requires t_value { t ≡ row_timing s }
    requires local_value { local ≡ near s }
    requires i_le_h { i ≤ s.h }
    ensures value { result ≡ link_up s i }
    ensures held_from { HeldFrom (link_up s) i s.h up.new }
{
    if i == s.h {
        let link = link_for(t, local);
        up[i as usize] = link;
        return link;
    }
    let below = upward_links(s, t, local, i + 1, up);
    let link = joined_link(t, local, below, s.nr, NO_LOAD);
    up[i as usize] = link;
    link
}

// Sets the downward links of depths 0 to SINK − 1, each from the upward link of the depth below it and the downward one above it, and
// answers the load that comes down to the sink.
pub(crate) fn downward_links(
    s: Settings,
    t: Timing,
    local: Load,
    up: &[Link; DEPTHS],
    down: &mut [Link; DEPTHS],
) -> Load
    requires sound { Sound s }
    requires t_value { t ≡ row_timing s }
    requires local_value { local ≡ near s }
    requires held_from { HeldFrom (link_up s) 0 s.h up.now }
    ensures value { result ≡ coming s s.sink }
    ensures held_below { HeldBelow (link_down s) s.sink down.new }
{
    // What comes down to depth i: nothing to the root.
    let mut passing = NO_LOAD;
    for i in 0..s.sink {
        let below = link_at(up, i + 1);
        let link = joined_link(t, local, below, s.nr - 1, passing);
        down[i as usize] = link;
        passing = link.load.after(link.reservation);
    }
    passing
}

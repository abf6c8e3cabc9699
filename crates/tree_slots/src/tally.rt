// The reservations of every router and the slots that they use, by one pass over the links. What is required here `check` meets.
ghost use Rattle.std.specs.Prelude.{◌≡◌, ◌+◌, ◌<◌, length, get_or, set, replicate};
ghost use Rattle.measure.specs.Measures.{up_to_64};
ghost use Rattle.tree_plan_model.specs.Tables.{Loaded, superframe_in, carries_in, Counted};

use links::{Timing, reservation_for};
use measure::Slots;
use tree_notes::{load_at, superframe_at};

// Counts the reservations of each router, and adds up their slots, into tables of zeros.
pub(crate) fn tally(
    t: Timing,
    parents: &[u8],
    notes: &[u64; 768],
    sink: usize,
    counts: &mut [u8; 256],
    used: &mut [u64; 256],
)
    requires loaded { Loaded t parents.now notes.now }
    requires counts_value { counts.old ≡ replicate 256 0 }
    requires used_value { used.old ≡ replicate 256 0 }
    ensures { Counted t parents.now notes.now sink counts.new used.new }
{
    for v in 1..parents.len() {
        if carries(notes, sink, v) {
            let router = superframe_of(parents, notes, v);
            let reservation = reservation_for(t, load_at(notes, v).rate);
            counts[router] += 1;
            add_slots(used, router, reservation.slots);
        }
    }
}

// Adds slots to those of a router.
fn add_slots(used: &mut [u64; 256], router: usize, more: Slots)
    requires { router < 256 }
    ensures { used.new ≡ set used.old router (up_to_64 (get_or used.old router 0 + more.0)) }
{
    used[router] = Slots(used[router]).plus(more).0;
}

// Whether the link of node v has traffic: the sink has no link.
fn carries(notes: &[u64; 768], sink: usize, v: usize) -> bool
    requires { v < 256 }
    ensures { result ≡ carries_in notes.now sink v }
{
    v != sink && 0 < load_at(notes, v).rate.0
}

// The router in whose superframe the link of node v lies: the parent of its two ends.
fn superframe_of(parents: &[u8], notes: &[u64; 768], v: usize) -> usize
    requires v_in_bounds { v < length parents.now }
    requires v_bound { v < 256 }
    ensures { result ≡ superframe_in parents.now notes.now v }
{
    superframe_at(notes, parents[v], v)
}

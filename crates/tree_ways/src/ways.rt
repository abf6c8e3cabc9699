// The delays of the links from every node to the sink together: of a node's own link, and of those from its neighbour towards the sink on.
// This file alone knows how they stand in a table. What is required here `ways_of` meets. A table that is set is lent on as a slice: so its
// length is known.
ghost use Rattle.std.specs.Prelude.{◌≡◌, true, false, cond, ◌⊎◌, ◌+◌, ◌<◌, ◌≤◌, ltb, length, get_or, set};
ghost use Rattle.measure.specs.Measures.{symbols, up_to_64};
ghost use Rattle.tree_plan_model.specs.Tables.{Loaded, Led, Light, delay_in};
ghost use Rattle.tree_plan_model.specs.Filled.{DownFrom, WaysSet};
ghost use Rattle.tree_plan_model.specs.Inner.{load_in};

use crate::figures::link_figures;
use links::Timing;
use measure::Symbols;
use tree_notes::{load_at, towards_at};

// The delay of node v's way; 0 where v is no node's number.
pub fn way_at(ways: &[u64; 256], v: usize) -> Symbols
    ensures { result ≡ symbols (cond (ltb v 256) (get_or ways.now v 0) 0) }
{
    Symbols(ways.get(v).copied().unwrap_or(0))
}

// Sets the delays of all ways, by two passes.
pub(crate) fn set_ways(
    t: Timing,
    parents: &[u8],
    notes: &[u64; 768],
    sink: usize,
    ways: &mut [u64; 256],
)
    requires loaded { Loaded t parents.now notes.now }
    requires led { Led parents.now notes.now sink }
    ensures { WaysSet t parents.now notes.now sink ways.new }
{
    set_down(t, parents, notes, sink, ways);
    set_up(t, parents, notes, sink, ways);
}

// Those of the sink and of the nodes that it lies below, from the last node to the first: the neighbour towards the sink has a larger number.
fn set_down(t: Timing, parents: &[u8], notes: &[u64; 768], sink: usize, ways: &mut [u64])
    requires loaded { Loaded t parents.now notes.now }
    requires led { Led parents.now notes.now sink }
    requires ways_len { length ways.old ≡ 256 }
    ensures { DownFrom t parents.now notes.now sink 1 ways.new }
{
    ways[sink] = 0;
    for v in (1..parents.len()).rev() {
        let u = towards_at(notes, v);
        if v < u {
            set_way(t, notes, v, u, ways);
        }
    }
}

// Those of the others, from the first to the last: the neighbour towards the sink is the parent.
fn set_up(t: Timing, parents: &[u8], notes: &[u64; 768], sink: usize, ways: &mut [u64])
    requires loaded { Loaded t parents.now notes.now }
    requires led { Led parents.now notes.now sink }
    requires ways_len { length ways.old ≡ 256 }
    requires down_from { DownFrom t parents.now notes.now sink 1 ways.old }
    ensures { WaysSet t parents.now notes.now sink ways.new }
{
    for v in 1..parents.len() {
        let u = towards_at(notes, v);
        if v != sink && u < v {
            set_way(t, notes, v, u, ways);
        }
    }
}

// Sets the delay of node v's way, whose next node is u: that of v's link and that of u's way.
fn set_way(t: Timing, notes: &[u64; 768], v: usize, u: usize, ways: &mut [u64])
    requires ways_len { length ways.old ≡ 256 }
    requires v_bound { v < 256 }
    requires u_bound { u < 256 }
    requires light { Light t (load_in notes.now v) }
    ensures { ways.new ≡ set ways.old v (up_to_64 (delay_in t notes.now v + get_or ways.old u 0)) }
{
    let own = link_figures(t, load_at(notes, v)).delay;
    ways[v] = own.plus(Symbols(ways[u])).0;
}

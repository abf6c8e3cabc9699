// The loads of a tree by one walk away from the sink (document 02, E3: "a neighbour's output comes from that one's input"). Remaining nodes
// fall at each step. What is required here `loads_of` meets.
//
// Arrays are lent whole, so that a step takes little of the stack; `nodes` says how many of their entries are nodes.
ghost use Rattle.std.specs.Prelude.{◌≡◌, ◌≤◌, ◌<◌, ◌+◌, length, take};
ghost use Rattle.links.specs.Link.{load};
ghost use Rattle.measure.specs.Measures.{frames, burst};
ghost use Rattle.tree_model.specs.Tree.{Facing, Rooted};
ghost use Rattle.tree_model.specs.Loads.{input_of, output_of};
ghost use Rattle.tree_plan_model.specs.Children.{Linked, Beside, Nearest};
ghost use Rattle.tree_plan_model.specs.Inner.{shape, tree_up_to, Given, Noted, AllRight};

use links::{Load, Timing, reservation_for};
use measure::{Frames, Rate, burst_of};
use tree_notes::note;

// Notes the load that enters every node, and its neighbour towards the sink (0 at the sink).
pub(crate) fn walk(
    t: Timing,
    nodes: usize,
    kin: &[u8; 768],
    bursts: &[u8; 255],
    rates: &[u32; 255],
    sink: usize,
    notes: &mut [u64; 768],
)
    requires given { Given t (take (nodes + 1) kin.now) (take (nodes + 1) bursts.now) (take (nodes + 1) rates.now) }
    requires linked { Linked (take (nodes + 1) kin.now) kin.now }
    requires le_sink { 1 ≤ sink }
    requires sink_in_bounds { sink < length (take (nodes + 1) kin.now) }
    ensures { AllRight t (tree_up_to nodes kin.now bursts.now rates.now) sink notes.new }
{
    input_of_router(t, nodes, kin, bursts, rates, sink, 0, notes);
}

// The input of router v: its own sensor, and the output of each neighbour but the one at `from`, towards the sink. The inputs of v and of all
// beyond it are noted.
#[cycle(input_of_router_output_of_link)]
fn input_of_router(
    t: Timing,
    nodes: usize,
    kin: &[u8; 768],
    bursts: &[u8; 255],
    rates: &[u32; 255],
    v: usize,
    from: usize,
    notes: &mut [u64; 768],
) -> Load
    requires given { Given t (take (nodes + 1) kin.now) (take (nodes + 1) bursts.now) (take (nodes + 1) rates.now) }
    requires linked { Linked (take (nodes + 1) kin.now) kin.now }
    requires facing { Facing (tree_up_to nodes kin.now bursts.now rates.now) v from }
    ensures value { result ≡ input_of t (tree_up_to nodes kin.now bursts.now rates.now) v from }
    ensures noted { Noted t (tree_up_to nodes kin.now bursts.now rates.now) v from
        notes.old notes.new }
{
    let mut total = sensor_load(t, bursts[v], rates[v]);
    let mut w = neighbour_after(nodes, kin, v, 0);
    while w != 0 {
        let u = w;
        w = neighbour_after(nodes, kin, v, u);
        if u != from {
            total = total.plus(output_of_link(t, nodes, kin, bursts, rates, u, v, notes));
        }
    }
    note(notes, v, total, from);
    total
}

// The output of node w's link to its neighbour v, which lies towards the sink.
#[cycle(input_of_router_output_of_link)]
fn output_of_link(
    t: Timing,
    nodes: usize,
    kin: &[u8; 768],
    bursts: &[u8; 255],
    rates: &[u32; 255],
    w: usize,
    v: usize,
    notes: &mut [u64; 768],
) -> Load
    requires given { Given t (take (nodes + 1) kin.now) (take (nodes + 1) bursts.now) (take (nodes + 1) rates.now) }
    requires linked { Linked (take (nodes + 1) kin.now) kin.now }
    requires facing { Facing (tree_up_to nodes kin.now bursts.now rates.now) w v }
    ensures value { result ≡ output_of t (tree_up_to nodes kin.now bursts.now rates.now) w v }
    ensures noted { Noted t (tree_up_to nodes kin.now bursts.now rates.now) w v
        notes.old notes.new }
{
    let entered = input_of_router(t, nodes, kin, bursts, rates, w, v, notes);
    entered.after(reservation_for(t, entered.rate))
}

// What a node's own sensor makes.
fn sensor_load(t: Timing, own: u8, rate: u32) -> Load
    requires { t.interval.0 ≤ 15728640 }
    ensures { result ≡ load rate (burst (frames own) t.interval).0 }
{
    Load {
        rate: Rate(u64::from(rate)),
        burst: burst_of(Frames(u64::from(own)), t.interval),
    }
}

// The neighbour of v with the least number behind k, which is a neighbour of v or 0; 0 where there is none.
// Stays as it is: 0 is no node's number in the tables and in the definitions too, so an option would be made here only to be undone.
fn neighbour_after(nodes: usize, kin: &[u8; 768], v: usize, k: usize) -> usize
    requires kin_len_bound { length (take (nodes + 1) kin.now) ≤ 255 }
    requires rooted { Rooted (shape (take (nodes + 1) kin.now)) }
    requires linked { Linked (take (nodes + 1) kin.now) kin.now }
    requires le_v { 1 ≤ v }
    requires v_in_bounds { v < length (take (nodes + 1) kin.now) }
    requires k_in_bounds { k < length (take (nodes + 1) kin.now) }
    requires beside { 1 ≤ k → Beside (take (nodes + 1) kin.now) v k }
    ensures { Nearest (take (nodes + 1) kin.now) v k result }
{
    let parent = usize::from(kin[v]);
    if v < k {
        usize::from(kin[512 + k])
    } else if k == 0 && 0 < parent {
        parent
    } else {
        usize::from(kin[256 + v])
    }
}

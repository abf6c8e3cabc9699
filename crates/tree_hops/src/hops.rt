// Where each node's frames go next, three numbers a node: its parent, its neighbour towards the sink, and the router in whose superframe its
// link lies. What is required here `hops_of` meets.
ghost use Rattle.std.specs.Prelude.{◌≡◌, cond, ◌≤◌, ◌<◌, ◌-◌, ◌*◌, eqb, length};
ghost use Rattle.std.proofs.lemmas.List.Edits.{sets};
ghost use Rattle.tree_plan_model.specs.Hops.{hop_by, hops_by};
ghost use Rattle.tree_plan_model.specs.Tables.{Led, superframe_in};

use buffer::put_bytes;
use tree_notes::{superframe_at, towards_at};

// Puts those of each node, as far as there is room.
pub(crate) fn put_hops(parents: &[u8], notes: &[u64; 768], sink: usize, hops: &mut [u8])
    requires parents_len_bound { length parents.now ≤ 255 }
    requires led { Led parents.now notes.now sink }
    ensures { hops.new ≡ sets hops.old 0
        (hops_by parents.now notes.now sink (length parents.now - 1)) }
{
    for v in 1..parents.len() {
        put_hop(parents, notes, sink, v, hops);
    }
}

// Puts those of node v, behind those of the nodes before it.
fn put_hop(parents: &[u8], notes: &[u64; 768], sink: usize, v: usize, hops: &mut [u8])
    requires parents_len_bound { length parents.now ≤ 255 }
    requires led { Led parents.now notes.now sink }
    requires le_v { 1 ≤ v }
    requires v_in_bounds { v < length parents.now }
    ensures { hops.new ≡ sets hops.old (3 * (v - 1)) (hop_by parents.now notes.now sink v) }
{
    let towards = towards_at(notes, v) as u8;
    let router = superframe_of(parents, notes, sink, v) as u8;
    put_bytes(hops, 3 * (v - 1), &[parents[v], towards, router]);
}

// The router in whose superframe the link of node v lies: none at the sink.
fn superframe_of(parents: &[u8], notes: &[u64; 768], sink: usize, v: usize) -> usize
    requires v_in_bounds { v < length parents.now }
    requires v_bound { v < 256 }
    ensures { result ≡ cond (eqb v sink) 0 (superframe_in parents.now notes.now v) }
{
    if v == sink {
        0
    } else {
        superframe_at(notes, parents[v], v)
    }
}

// The lines of a surveyed tree's plan (document 02, E3), put into a table one behind another. What is required here `decide` meets.
ghost use Rattle.std.specs.Prelude.{◌≡◌, cond, ◌≤◌, ◌<◌, ◌-◌, eqb, length};
ghost use Rattle.std.proofs.lemmas.List.Edits.{sets};
ghost use Rattle.measure.specs.Measures.{symbols};
ghost use Rattle.tree_model.specs.Ways.{kind_of};
ghost use Rattle.node_table_model.specs.NodeRows.{tree_table};
ghost use Rattle.tree_plan_model.specs.Children.{Linked};
ghost use Rattle.tree_plan_model.specs.Inner.{shape};
ghost use Rattle.tree_plan_model.specs.Tables.{Loaded, Led, line_in, lines_in};
ghost use Rattle.tree_plan_model.specs.Filled.{DepthsSet, WaysSet};

use crate::figures::node_figures;
use links::{Load, Timing};
use measure::Symbols;
use node_table::put_node;
use plan_model::{Kind, Line, NodeLine};
use tree_children::is_router;
use tree_notes::{load_at, towards_at};
use tree_ways::ways::way_at;

// Puts the numbers of each node's line, as far as there is room.
pub(crate) fn put_lines(
    t: Timing,
    parents: &[u8],
    kin: &[u8; 768],
    notes: &[u64; 768],
    depths: &[u8; 256],
    ways: &[u64; 256],
    sink: usize,
    table: &mut [u64],
)
    requires loaded { Loaded t parents.now notes.now }
    requires led { Led parents.now notes.now sink }
    requires linked { Linked parents.now kin.now }
    requires depths_set { DepthsSet parents.now depths.now }
    requires ways_set { WaysSet t parents.now notes.now sink ways.now }
    ensures { table.new ≡ sets table.old 0
        (tree_table (lines_in t parents.now notes.now sink (length parents.now - 1))) }
{
    for v in 1..parents.len() {
        let line = line_of(t, parents, kin, notes, depths, ways, sink, v);
        put_node(table, v - 1, line);
    }
}

// The line of node v. The parents are here for what is required.
fn line_of(
    t: Timing,
    parents: &[u8],
    kin: &[u8; 768],
    notes: &[u64; 768],
    depths: &[u8; 256],
    ways: &[u64; 256],
    sink: usize,
    v: usize,
) -> NodeLine
    requires loaded { Loaded t parents.now notes.now }
    requires led { Led parents.now notes.now sink }
    requires linked { Linked parents.now kin.now }
    requires depths_set { DepthsSet parents.now depths.now }
    requires ways_set { WaysSet t parents.now notes.now sink ways.now }
    requires le_v { 1 ≤ v }
    requires v_in_bounds { v < length parents.now }
    ensures { result ≡ line_in t parents.now notes.now sink v }
{
    let load = load_at(notes, v);
    let kind = kind_of(parents, kin, notes, sink, v);
    let depth = u64::from(depths[v]);
    let figures = node_figures(t, sink, v, load);
    let line = Line {
        kind,
        depth,
        figures,
    };
    let route = route_with(load, way_at(ways, v));
    NodeLine { line, route }
}

// ROUTE of a node that this load enters: 0 where it has no traffic.
fn route_with(load: Load, way: Symbols) -> Symbols
    ensures { result ≡ symbols (cond (eqb load.rate.0 0) 0 way.0) }
{
    if load.rate.0 == 0 { Symbols(0) } else { way }
}

// KIND of node v.
fn kind_of(parents: &[u8], kin: &[u8; 768], notes: &[u64; 768], sink: usize, v: usize) -> Kind
    requires led { Led parents.now notes.now sink }
    requires linked { Linked parents.now kin.now }
    requires parents_len_bound { length parents.now ≤ 255 }
    requires le_v { 1 ≤ v }
    requires v_in_bounds { v < length parents.now }
    ensures { result ≡ kind_of (shape parents.now) sink v }
{
    if v == sink {
        Kind::Sink
    } else if v < towards_at(notes, v) {
        Kind::Downward
    } else if is_router(kin, v) {
        Kind::Upward
    } else {
        Kind::EndNode
    }
}

// The figures of a node's line: those of its link, and the sink's (document 02, E3). What is required here `decide` meets.
ghost use Rattle.std.specs.Prelude.{◌≡◌};
ghost use Rattle.tree_plan_model.specs.Tables.{Light, sink_for, figures_for};

use links::{Figures, Load, Timing};
use measure::whole_frames;
use tree_ways::figures::{link_figures, no_figures};

// The figures of node v, which that load enters: the sink's, or those of its link.
pub(crate) fn node_figures(t: Timing, sink: usize, v: usize, load: Load) -> Figures
    requires { Light t load }
    ensures { result ≡ figures_for t sink v load }
{
    if v == sink {
        sink_figures(t, load)
    } else {
        link_figures(t, load)
    }
}

// The sink's figures: it has no link, and BUFFER is its burst in frames.
fn sink_figures(t: Timing, load: Load) -> Figures
    ensures { result ≡ sink_for t load }
{
    Figures {
        rate: load.rate,
        burst: load.burst,
        buffer: whole_frames(load.burst, t.interval),
        ..no_figures()
    }
}

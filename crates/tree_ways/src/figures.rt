// The figures of a link: zeros where it has no traffic (document 02, E3: "Links with rate 0 get no reservation, and zeros after DEPTH").
ghost use Rattle.std.specs.Prelude.{◌≡◌};
ghost use Rattle.plan_model.specs.Lines.{no_figures};
ghost use Rattle.tree_plan_model.specs.Tables.{Light, link_for};

use links::{Figures, Load, Timing, figures_of, reservation_for};
use measure::{FrameSymbols, Frames, Rate, Slots, Symbols};

// The figures of the link that a load enters. Where times and load are within their bounds, as those of every planned tree are, they are the
// definition's: no sum is cut off at 64 bits.
pub fn link_figures(t: Timing, load: Load) -> Figures
    ensures { Light t load → result ≡ link_for t load }
{
    if load.rate.0 == 0 {
        no_figures()
    } else {
        figures_of(t.interval, load, reservation_for(t, load.rate))
    }
}

// Those without traffic.
pub fn no_figures() -> Figures
    ensures { result ≡ no_figures }
{
    Figures {
        rate: Rate(0),
        burst: FrameSymbols(0),
        slots: Slots(0),
        frames: Frames(0),
        latency: Symbols(0),
        buffer: Frames(0),
        delay: Symbols(0),
    }
}

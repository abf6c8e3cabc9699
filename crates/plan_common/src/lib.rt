// What rows and surveyed trees share on their way to a plan: the times that are set on every radio, and the plan of a refusal.
//
// No public function has a `requires`: each answers every argument, as an equation with a definition of plan_model says.
#![tactic(auto)]

ghost use Rattle.std.specs.Prelude.{◌≡◌, Err};
ghost use Rattle.plan_model.specs.Times.{timing_answered};

use links::Timing;
use refusals::Refusal;
use settings_model::Radio;

// BI, S and the exchange with LOSS, of whatever is set.
#[tactic(auto, unfolding(plan_model::specs::Times::timing_answered))]
pub fn timing_of(b: Radio) -> Timing
    ensures { result ≡ timing_answered b }
{
    let octets = b.head.saturating_add(b.payload);
    Timing {
        interval: superframe::orders::beacon_interval(b.bo),
        slot: superframe::orders::slot_length(b.so),
        exchange: superframe::loss::lossy_exchange_time(octets, b.ack == 1, b.loss),
    }
}

// The plan of refused settings: there is none, and why.
pub fn refused_plan(refusal: Refusal) -> Result<usize, Refusal>
    ensures { result ≡ Err refusal }
{
    Err(refusal)
}

// Numbers 3 to 6 of document 01's table, of any settings: the ranges, values at odds, how many reservations a superframe holds, and how many
// superframes an interval.
//
// The public function has no `requires`: settings may come that nobody checked. Inner functions presume numbers 3 and 4, which it asks first.
#![tactic(auto)]

ghost use Rattle.std.specs.Prelude.{◌≡◌, ◌≤◌, ◌^◌, suc};
ghost use Rattle.network.specs.Counting.{total};
ghost use Rattle.refusals.specs.Conditions.{verdict};
ghost use Rattle.settings_model.specs.Laws.{Checked};
ghost use Rattle.row_model.specs.Checks.{reservations, routers_fit};
ghost use Rattle.row_plan_model.specs.Inner.{checks_before_slots};

use refusals::Refusal;
use settings_model::Settings;

// The reservations that a superframe describes, at most.
const MOST_RESERVATIONS: u64 = 7;

// Numbers 3 to 6, in their order.
#[tactic(auto, using(refusals::proofs::Answering::two_verdicts), unfolding(row_plan_model::specs::Inner::checks_before_slots))]
pub fn check_before_slots(s: Settings) -> Result<(), Refusal>
    ensures { result ≡ verdict (checks_before_slots s) }
{
    settings::check(s)?;
    reservations_fit(s)?;
    routers_fit(s)
}

// Number 5, of checked settings.
#[tactic(auto, unfolding(row_model::specs::Checks::reservations, refusals::specs::Conditions::first_broken))]
fn reservations_fit(s: Settings) -> Result<(), Refusal>
    requires { Checked s }
    ensures { result ≡ verdict (reservations s) }
{
    if MOST_RESERVATIONS < s.ne + s.nr {
        return Err(Refusal::Reservations { ne: s.ne, nr: s.nr });
    }
    Ok(())
}

// Number 6, of checked settings.
#[tactic(auto, using(plan_model::proofs::TimesMade::one_shifted), unfolding(row_model::specs::Checks::routers_fit, row_model::specs::Checks::routers, plan_model::specs::Times::superframes, refusals::specs::Conditions::first_broken))]
fn routers_fit(s: Settings) -> Result<(), Refusal>
    requires { Checked s }
    ensures { result ≡ verdict (routers_fit s) }
{
    let routers = routers_of(s.nr, s.h);
    let superframes = 1 << (s.bo - s.so);
    if superframes < routers {
        return Err(Refusal::Superframes {
            routers,
            superframes,
        });
    }
    Ok(())
}

// The routers of a full tree: the sum of NR^j for j = 0 to H, by Horner's rule.
fn routers_of(nr: u64, h: u64) -> u64
    requires nr_bound { nr ≤ 7 }
    requires h_bound { h ≤ 12 }
    ensures { result ≡ total (λ j. nr ^ j) (suc h) }
{
    let mut routers = 1;
    for _ in 0..h {
        routers = 1 + nr * routers;
    }
    routers
}

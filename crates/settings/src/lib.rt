// Settings (document 01, 'Rows of settings'; document 02, E3 and E5): whether the thirteen values of a row, or the six that come beside a
// node list, keep the conditions of numbers 3 and 4. Nothing here knows how they are written.
//
// No public function has a `requires`: each answers every argument, as an equation with a definition of settings_model says. Nothing is
// written anywhere.
#![tactic(auto)]

ghost use Rattle.std.specs.Prelude.{◌≡◌};
ghost use Rattle.refusals.specs.Conditions.{verdict};
ghost use Rattle.settings_model.specs.Checks.{values_of, at_odds, checks, radio_ranged, radio_at_odds, radio_checks};
ghost use Rattle.settings_model.specs.Checks as definition;

use crate::columns::in_range;
use crate::odds::{frame_agrees, orders_agree, shape_agrees};
use refusals::Refusal;
use settings_model::{Radio, Settings};

mod columns; // the values' ranges: number 3
mod odds; // values at odds: number 4

// Whether the settings of a row keep every range and are not at odds, or the first refusal of numbers 3 and 4.
#[tactic(auto, using(refusals::proofs::Answering::two_verdicts), unfolding(settings_model::specs::Checks::checks))]
pub fn check(s: Settings) -> Result<(), Refusal>
    ensures { result ≡ verdict (checks s) }
{
    in_range(0, &values_of(s))?;
    agree(s)
}

// The same of what comes beside a node list.
#[tactic(auto, using(refusals::proofs::Answering::two_verdicts), unfolding(settings_model::specs::Checks::radio_checks))]
pub fn check_radio(b: Radio) -> Result<(), Refusal>
    ensures { result ≡ verdict (radio_checks b) }
{
    radio_in_range(b)?;
    radio_agrees(b)
}

// What a row sets on every radio. Stays as it is: both types are of settings_model, which has no function (a rule of the project), so no From
// stands beside them.
pub fn radio_of(s: Settings) -> Radio
    ensures { result ≡ definition.radio_of s }
{
    Radio {
        bo: s.bo,
        so: s.so,
        head: s.head,
        payload: s.payload,
        ack: s.ack,
        loss: s.loss,
    }
}

// The values of a row in the columns' order.
#[tactic(auto, unfolding(settings_model::specs::Checks::values_of))]
fn values_of(s: Settings) -> [u64; 13]
    ensures { result ≡ values_of s }
{
    [
        s.bo, s.so, s.h, s.nr, s.ne, s.own, s.sink, s.burst, s.rate, s.head, s.payload, s.ack,
        s.loss,
    ]
}

// Number 4 of a row.
#[tactic(auto, using(refusals::proofs::Answering::two_verdicts), unfolding(settings_model::specs::Checks::at_odds))]
fn agree(s: Settings) -> Result<(), Refusal>
    ensures { result ≡ verdict (at_odds s) }
{
    let b = radio_of(s);
    orders_agree(b)?;
    shape_agrees(s)?;
    frame_agrees(b)
}

// Number 3 of what comes beside a node list: columns 1 and 2, and 10 to 13.
#[tactic(auto, using(refusals::proofs::Answering::two_verdicts), unfolding(settings_model::specs::Checks::radio_ranged))]
fn radio_in_range(b: Radio) -> Result<(), Refusal>
    ensures { result ≡ verdict (radio_ranged b) }
{
    in_range(0, &[b.bo, b.so])?;
    in_range(9, &[b.head, b.payload, b.ack, b.loss])
}

// Number 4 of what comes beside a node list.
#[tactic(auto, using(refusals::proofs::Answering::two_verdicts), unfolding(settings_model::specs::Checks::radio_at_odds))]
fn radio_agrees(b: Radio) -> Result<(), Refusal>
    ensures { result ≡ verdict (radio_at_odds b) }
{
    orders_agree(b)?;
    frame_agrees(b)
}

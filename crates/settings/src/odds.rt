// Values at odds with each other: number 4 of document 01's table, with document 02's E5.
// Each function here is proved by the cases of its tests, with the conditions unfolded.
#![tactic(auto, unfolding(settings_model::proofs::Computing::checking))]

ghost use Rattle.std.specs.Prelude.{◌≡◌};
ghost use Rattle.refusals.specs.Conditions.{verdict};
ghost use Rattle.settings_model.specs.Checks.{orders_at_odds, shape_at_odds, frame_at_odds};

use refusals::Conflict;
use refusals::Refusal::{self, AtOdds};
use settings_model::{Radio, Settings};

// The most octets that a frame has.
const LONGEST_FRAME: u64 = 127;

// The beacon and the superframe order at odds, if they are.
pub(crate) fn orders_agree(b: Radio) -> Result<(), Refusal>
    ensures { result ≡ verdict (orders_at_odds b) }
{
    let Radio { bo, so, .. } = b;
    if so > bo {
        return Err(AtOdds(Conflict::Orders { so, bo }));
    }
    Ok(())
}

// The first values of a row's tree that are at odds, in the papers' order, if any are.
pub(crate) fn shape_agrees(s: Settings) -> Result<(), Refusal>
    ensures { result ≡ verdict (shape_at_odds s) }
{
    let Settings {
        h,
        nr,
        ne,
        own,
        sink,
        ..
    } = s;
    if (nr == 0) != (h == 0) {
        return Err(AtOdds(Conflict::Routers { nr, h }));
    }
    if ne == 0 && own == 0 {
        return Err(AtOdds(Conflict::Sensors { ne, own }));
    }
    if sink > h {
        return Err(AtOdds(Conflict::SinkDepth { sink, h }));
    }
    if sink > 0 && nr < 2 {
        return Err(AtOdds(Conflict::SinkBranches { sink, nr }));
    }
    Ok(())
}

// A frame's octets at odds, or LOSS and ACK, if they are. (A sum of octets that does not fit is too long as well.)
pub(crate) fn frame_agrees(b: Radio) -> Result<(), Refusal>
    ensures { result ≡ verdict (frame_at_odds b) }
{
    let Radio {
        head,
        payload,
        ack,
        loss,
        ..
    } = b;
    if head.saturating_add(payload) > LONGEST_FRAME {
        return Err(AtOdds(Conflict::FrameLength { head, payload }));
    }
    if loss > 0 && ack == 0 {
        return Err(AtOdds(Conflict::Unacknowledged { loss, ack }));
    }
    Ok(())
}

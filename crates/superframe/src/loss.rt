// How long an exchange lasts where some tries of its frame may fail (document 02, E5).
ghost use Rattle.std.specs.Prelude.{◌≡◌};
ghost use Rattle.superframe_model.specs.Loss.{lossy_exchange_for};

use crate::exchange::exchange_time;
use measure::Symbols;

// The most tries of one frame that may fail in a row.
const MOST: u64 = 7;

// What a failed try takes beyond X: 54 symbols of waiting in place of an acknowledgement's 34.
const WAIT: u64 = 20;

// X + LOSS × (X + 20) for a frame of that many octets, 6 to 127, and LOSS up to 7. Other octets are taken as the longest frame, and a LOSS
// above 7 as 7.
#[tactic(auto, using(superframe_model::proofs::ExchangeLaws::exchanges), unfolding(superframe_model::specs::Loss::lossy_exchange_for, superframe_model::specs::Loss::with_loss, superframe_model::specs::Loss::failed_try))]
pub fn lossy_exchange_time(octets: u64, acknowledged: bool, loss: u64) -> Symbols
    ensures { result ≡ lossy_exchange_for octets acknowledged loss }
{
    let x = exchange_time(octets, acknowledged).0;
    Symbols(x + loss.min(MOST) * (x + WAIT))
}

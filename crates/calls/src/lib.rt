// What calls from bytes share: the answer to a plan, a line of English in a lent buffer, and the calls about no row and no tree.
//
// No public function has a `requires`: each answers every argument, as equations with definitions of calls_model say. A lent buffer that is
// too short is number 8, and keeps every byte.
#![tactic(auto)]

ghost use Rattle.std.specs.Prelude.{◌≡◌, ◌≤◌, length};
ghost use Rattle.std.proofs.lemmas.List.Edits.{sets};
ghost use Rattle.reason_model.specs.Reading.{read_reason};
ghost use Rattle.calls_model.specs.Calls.{answer_to_refusal, left};
ghost use Rattle.calls_model.specs.Reasons.{line_left, plain, line_among, explain_refusal, numbered};
ghost use Rattle.calls_model.specs.Inner.{answer_of};
ghost use Rattle.calls_model.specs.Exchanges.{exchange_asked};

use calls_model::{Answer, Numbered};
use reason_print::put_reason;
use refusals::Refusal;
use superframe::exchange;

// The answer to a plan: number 0 and the text's length, or number and place of the refusal.
#[tactic(auto, unfolding(calls_model::specs::Inner::answer_of, calls_model::specs::Calls::answer_to_refusal))]
pub fn answer_of(planned: Result<usize, Refusal>) -> Answer
    ensures { result ≡ answer_of planned }
{
    match planned {
        Ok(length) => Answer {
            number: 0,
            place: 0,
            length: length as u64,
        },
        Err(refusal) => refused(refusal),
    }
}

// The answer to a refusal.
#[tactic(auto, unfolding(calls_model::specs::Calls::answer_to_refusal))]
pub fn refused(refusal: Refusal) -> Answer
    ensures { result ≡ answer_to_refusal refusal }
{
    Answer {
        number: refusal.number(),
        place: refusal.place(),
        length: 0,
    }
}

// Puts a line at the front of the lent buffer, where it has room.
#[tactic(auto, unfolding(calls_model::specs::Reasons::line_left))]
pub fn leave(number: u32, place: u32, line: &[u8], out: &mut [u8]) -> Answer
    ensures { left result out.new ≡ line_left number place line.now out.old }
{
    if out.len() < line.len() {
        return refused(Refusal::LentTooShort);
    }
    let length = octets::copy(line, out) as u64;
    Answer {
        number,
        place,
        length,
    }
}

// Puts the line of a refusal that its number and place alone determine: 1, 8 and 9, at place 0. Nothing is put for any other.
pub fn explain_refusal(number: u32, place: u32, out: &mut [u8]) -> Answer
    ensures { left result out.new ≡ explain_refusal number place out.old }
{
    let mut line = [0u8; reason_print::LONGEST];
    let n = put_plain(&mut line, number, place);
    leave(0, 0, &line[..n], out)
}

// Puts the line of a refusal by its number and place, and answers its length.
#[tactic(auto, unfolding(calls_model::specs::Reasons::plain, calls_model::specs::Reasons::line_among, refusals::proofs::Computing::tabled))]
fn put_plain(out: &mut [u8], number: u32, place: u32) -> usize
    ensures value { result ≡ length (line_among plain number place) }
    ensures upper_bound { result ≤ 160 }
    ensures out_after { out.new ≡ sets out.old 0 (line_among plain number place) }
{
    match (number, place) {
        (1, 0) => put_reason(out, Refusal::Names),
        (8, 0) => put_reason(out, Refusal::LentTooShort),
        (9, 0) => put_reason(out, Refusal::InputTooLong),
        _ => 0,
    }
}

// Number and place of a line without its LF; 0 and 0 where it is no refusal's.
#[tactic(auto, unfolding(calls_model::specs::Reasons::numbered))]
pub fn read_reason(line: &[u8]) -> Numbered
    ensures { result ≡ numbered (read_reason line.now) }
{
    let (number, place) = match reason_read::read_reason(line) {
        Some(reason) => (reason.number, reason.place),
        None => (0, 0),
    };
    Numbered { number, place }
}

// X of a frame of that many octets, 6 to 127, without acknowledgement (ACK 0) or with (1). For any other: 0, which no exchange lasts.
#[tactic(auto, using(calls_model::proofs::ExchangesAsked::exchange_inside, calls_model::proofs::ExchangesAsked::exchange_bound), unfolding(calls_model::specs::Exchanges::exchange_asked))]
pub fn exchange_time(octets: u32, ack: u32) -> u32
    ensures value { result ≡ exchange_asked octets ack }
    ensures upper_bound { result ≤ 340 }
{
    match (octets, ack) {
        (6..=127, 0 | 1) => exchange::exchange_time(u64::from(octets), ack == 1).0 as u32,
        _ => 0,
    }
}

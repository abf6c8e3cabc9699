// The sort of each refusal, its place and the values concerned.
ghost use Rattle.std.specs.Prelude.{◌≡◌};
ghost use Rattle.refusals.specs.Refusals.{placed, fixed, conflict_facts, tree_facts, facts_of};

use crate::table::place_at;
use crate::{Conflict, Facts, Refusal, TreeRefusal};

// What is told of a refusal.
#[tactic(auto, unfolding(crate::specs::Refusals::facts_of))]
pub fn facts_of(refusal: Refusal) -> Facts
    ensures { result ≡ facts_of refusal }
{
    match refusal {
        Refusal::Names => fixed(0, 0, 0),
        Refusal::Unreadable { column } => placed(1, column, 0, 0),
        Refusal::TextAfter { column } => placed(2, column, 0, 0),
        Refusal::OutOfRange { column, value } => placed(3, column, value, 0),
        Refusal::AtOdds(conflict) => conflict_facts(conflict),
        Refusal::Reservations { ne, nr } => fixed(11, ne, nr),
        Refusal::Superframes {
            routers,
            superframes,
        } => fixed(12, routers, superframes),
        Refusal::SlotsUsed {
            depth,
            used,
            reservable,
        } => placed(13, depth, used.0, reservable.0),
        Refusal::LentTooShort => fixed(14, 0, 0),
        Refusal::InputTooLong => fixed(15, 0, 0),
        Refusal::InTree(refusal) => tree_facts(refusal),
    }
}

// Of values at odds.
#[tactic(auto, unfolding(crate::specs::Refusals::conflict_facts))]
fn conflict_facts(conflict: Conflict) -> Facts
    ensures { result ≡ conflict_facts conflict }
{
    match conflict {
        Conflict::Orders { so, bo } => fixed(4, so, bo),
        Conflict::Routers { nr, h } => fixed(5, nr, h),
        Conflict::Sensors { ne, own } => fixed(6, ne, own),
        Conflict::SinkDepth { sink, h } => fixed(7, sink, h),
        Conflict::SinkBranches { sink, nr } => fixed(8, sink, nr),
        Conflict::FrameLength { head, payload } => fixed(9, head, payload),
        Conflict::Unacknowledged { loss, ack } => fixed(10, loss, ack),
    }
}

// Of a surveyed tree's refusal.
#[tactic(auto, unfolding(crate::specs::Refusals::tree_facts))]
fn tree_facts(refusal: TreeRefusal) -> Facts
    ensures { result ≡ tree_facts refusal }
{
    match refusal {
        TreeRefusal::NodeNames => fixed(16, 0, 0),
        TreeRefusal::NodeLine { line } => placed(17, line, 0, 0),
        TreeRefusal::SinkNode => fixed(18, 0, 0),
        TreeRefusal::RouterReservations {
            router,
            reservations,
        } => placed(19, router, reservations, 0),
        TreeRefusal::RouterSlots {
            router,
            used,
            reservable,
        } => placed(20, router, used.0, reservable.0),
    }
}

// At the place that its row of the table says.
fn fixed(sort: usize, first: u64, second: u64) -> Facts
    ensures { result ≡ fixed sort first second }
{
    placed(sort, place_at(sort), first, second)
}

// At a place of its own.
fn placed(sort: usize, place: u32, first: u64, second: u64) -> Facts
    ensures { result ≡ placed sort place first second }
{
    Facts {
        sort,
        place,
        first,
        second,
    }
}

// Numbers 5 and 7 of a surveyed tree, router by router (document 02, E3). What is required here `check` meets.
ghost use Rattle.std.specs.Prelude.{◌≡◌, ◌≤◌, ◌<◌, ◌-◌};
ghost use Rattle.refusals.specs.Conditions.{verdict};
ghost use Rattle.tree_plan_model.specs.Tables.{router_by, routers_by};

use measure::Slots;
use refusals::{Refusal, TreeRefusal};
use superframe::orders::reservable_slots;

// The reservations that a superframe describes, at most.
const MOST_RESERVATIONS: u64 = 7;

// Whether every router has reservations and slots enough, of n nodes and entry 0: the first that has not.
pub(crate) fn routers_fit(
    so: u64,
    n: usize,
    counts: &[u8; 256],
    used: &[u64; 256],
) -> Result<(), Refusal>
    requires le_n { 1 ≤ n }
    requires n_bound { n ≤ 255 }
    requires so_bound { so ≤ 14 }
    ensures { result ≡ verdict (routers_by so counts.now used.now (n - 1) 1) }
{
    for router in 1..n {
        router_fits(so, counts, used, router)?;
    }
    Ok(())
}

// Numbers 5 and 7 of one router.
fn router_fits(so: u64, counts: &[u8; 256], used: &[u64; 256], router: usize) -> Result<(), Refusal>
    requires so_bound { so ≤ 14 }
    requires router_bound { router < 255 }
    ensures { result ≡ verdict (router_by so counts.now used.now router) }
{
    let reservations = u64::from(counts[router]);
    if MOST_RESERVATIONS < reservations {
        return Err(Refusal::InTree(TreeRefusal::RouterReservations {
            router: router as u32,
            reservations,
        }));
    }
    let used = Slots(used[router]);
    let reservable = reservable_slots(so, reservations);
    if reservable.0 < used.0 {
        return Err(Refusal::InTree(TreeRefusal::RouterSlots {
            router: router as u32,
            used,
            reservable,
        }));
    }
    Ok(())
}

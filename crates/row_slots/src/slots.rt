// Number 7 of document 01's table: the slots that each router's superframe needs, depth by depth. What is required here
// `check` meets.
ghost use Rattle.std.specs.Prelude.{◌≡◌, ◌≤◌, ◌<◌, suc, [], ◌∷◌, ltb};
ghost use Rattle.refusals.specs.declared.Refusal.TheVariants.{SlotsUsed};
ghost use Rattle.refusals.specs.Conditions.{condition, verdict};
ghost use Rattle.settings_model.specs.Laws.{Checked};
ghost use Rattle.row_model.specs.Times.{reservable_at};
ghost use Rattle.row_model.specs.Checks.{used_off_path, used_on_path, has_off_path, used_at, used_from};
ghost use Rattle.row_plan_model.specs.Inner.{RowHeld};

use measure::Slots;
use refusals::Refusal;
use row_loads::table::link_at;
use row_plan_model::Row;
use settings_model::Settings;
use superframe::orders::reservable_slots;

// Number 7: the first depth at which the slots used exceed its L, if there is one.
pub(crate) fn slots_fit(row: &Row) -> Result<(), Refusal>
    requires { RowHeld row.now }
    ensures { result ≡ verdict (used_from row.now.s (suc row.now.s.h) 0) }
{
    for i in 0..=row.s.h {
        depth_fits(row, i)?;
    }
    Ok(())
}

// Number 7 at depth i: the routers off the sink's path, and the one on it.
#[tactic(auto, unfolding(row_model::specs::Checks::used_at, row_model::specs::Checks::off_path_at, row_model::specs::Checks::on_path_at, row_model::specs::Checks::has_on_path, refusals::specs::Conditions::first_broken))]
fn depth_fits(row: &Row, i: u64) -> Result<(), Refusal>
    requires held { RowHeld row.now }
    requires i_le_h { i ≤ row.now.s.h }
    ensures { result ≡ verdict (used_at row.now.s i) }
{
    let l = reservable_at(row.s, i);
    if has_off_path(row.s, i) {
        fits_at(l, off_path_slots(row, i), i)?;
    }
    if i < row.s.sink {
        fits_at(l, on_path_slots(row, i), i)?;
    }
    Ok(())
}

// Whether the slots used at depth i exceed L.
#[tactic(auto, unfolding(refusals::specs::Conditions::first_broken))]
fn fits_at(l: Slots, used: Slots, i: u64) -> Result<(), Refusal>
    requires { i ≤ 12 }
    ensures { result ≡ verdict (condition (ltb l.0 used.0) (SlotsUsed i used l) ∷ []) }
{
    if l.0 < used.0 {
        return Err(Refusal::SlotsUsed {
            depth: i as u32,
            used,
            reservable: l,
        });
    }
    Ok(())
}

// Whether a depth has routers off the sink's path: not the root's, where the sink is below it.
#[tactic(auto, unfolding(row_model::specs::Checks::has_off_path))]
fn has_off_path(s: Settings, i: u64) -> bool
    ensures { result ≡ has_off_path s i }
{
    i > 0 || s.sink == 0
}

// What a router off the sink's path uses at depth i: NE end nodes, and above depth H NR child routers.
fn off_path_slots(row: &Row, i: u64) -> Slots
    requires { RowHeld row.now }
    ensures { result ≡ used_off_path row.now.s i }
{
    let ends = row.links.end.reservation.slots.times(row.s.ne);
    if i < row.s.h {
        let below = link_at(row.up, i + 1).reservation.slots;
        return ends.plus(below.times(row.s.nr));
    }
    ends
}

// What the router on the sink's path uses at depth i: one of the NR is replaced by the downward one.
fn on_path_slots(row: &Row, i: u64) -> Slots
    requires held { RowHeld row.now }
    requires i_lt_sink { i < row.now.s.sink }
    ensures { result ≡ used_on_path row.now.s i }
{
    let end = row.links.end.reservation.slots;
    let below = link_at(row.up, i + 1).reservation.slots;
    let own = link_at(row.down, i).reservation.slots;
    end.times(row.s.ne)
        .plus(below.times(row.s.nr - 1))
        .plus(own)
}

// L of a router at depth i, of checked settings: it has NE reservations, and above depth H NR more.
#[tactic(auto, using(plan_model::proofs::TimesMade::order_is), unfolding(row_model::specs::Times::routers_below, row_model::specs::Times::reservations_at, row_model::specs::Times::reservable_at))]
fn reservable_at(s: Settings, i: u64) -> Slots
    requires { Checked s }
    ensures { result ≡ reservable_at s i }
{
    let routers = if i < s.h { s.nr } else { 0 };
    reservable_slots(s.so, s.ne + routers)
}

// The links of a row that keeps numbers 3 to 6 of document 01's table: the load and the reservation of every one.
//
// No public function has a `requires`: settings may come that nobody checked. Each answers all of them, as equations with definitions of
// row_plan_model say. Inner functions presume what the checks before them have found; their `requires` say what.
#![tactic(auto)]

ghost use Rattle.std.specs.Prelude.{◌≡◌};
ghost use Rattle.refusals.specs.Conditions.{verdict, verdict_of};
ghost use Rattle.row_model.specs.Times.{row_timing};
ghost use Rattle.row_model.specs.Bounds.{Sound};
ghost use Rattle.row_plan_model.specs.Inner.{TablesHeld, LinksOf, LinksLeft, checks_before_slots};

use crate::loads::{downward_links, link_for, near_load, sensor_load, upward_links};
use crate::table::link_at;
use links::Timing;
use plan_common::timing_of;
use refusals::Refusal;
use row_check::check_before_slots;
use row_plan_model::{DEPTHS, Link, Links};
use settings::radio_of;
use settings_model::Settings;

pub mod table; // the link of a depth, read from a table
mod loads; // the load and the reservation of every link, from depth H to the root and on to the sink

// Numbers 3 to 6 of any settings, and where they are kept the row's links: in two lent tables the upward and the downward ones. Refused
// settings leave both tables as they were.
pub fn links_of(
    s: Settings,
    up: &mut [Link; DEPTHS],
    down: &mut [Link; DEPTHS],
) -> Result<Links, Refusal>
    ensures verdict_value { verdict_of result ≡ verdict (checks_before_slots s) }
    ensures links_left { LinksLeft s result up.old up.new down.old down.new }
{
    check_before_slots(s)?;
    Ok(sound_links(s, up, down))
}

// The links of settings that keep numbers 3 to 6 (`links_of` has checked them).
fn sound_links(s: Settings, up: &mut [Link; DEPTHS], down: &mut [Link; DEPTHS]) -> Links
    requires { Sound s }
    ensures tables_held { TablesHeld s up.new down.new }
    ensures links_value { LinksOf s result }
{
    let t = row_timing(s);
    let made = sensor_load(s, t);
    let end = link_for(t, made);
    let local = near_load(s, made, end.reservation);
    upward_links(s, t, local, 0, up);
    let passing = downward_links(s, t, local, up, down);
    Links {
        interval: t.interval,
        end,
        arriving: link_at(up, s.sink).load.plus(passing),
    }
}

// The times of such a row.
fn row_timing(s: Settings) -> Timing
    requires { Sound s }
    ensures { result ≡ row_timing s }
{
    timing_of(radio_of(s))
}

// The slots that a row's routers use (document 01, 'The tree and its loads'): the first refusal of numbers 3 to 7, or the row's links.
//
// The public function has no `requires`: settings may come that nobody checked. It answers all of them, as equations with definitions of
// row_plan_model say. Inner functions presume what the checks before them have found; their `requires` say what.
#![tactic(auto)]

ghost use Rattle.std.specs.Prelude.{◌≡◌};
ghost use Rattle.refusals.specs.Conditions.{verdict, verdict_of};
ghost use Rattle.row_model.specs.Checks.{conditions};
ghost use Rattle.row_plan_model.specs.Inner.{LinksLeft, LinksThere, told};

use crate::slots::slots_fit;
use row_loads::links_of;
use row_plan_model::{DEPTHS, Link, Links, RefusedRow, Row};
use settings_model::Settings;

mod slots; // number 7

// All conditions on settings in their order, and where they are kept the row's links: in two lent tables the upward and the downward ones.
// Settings that numbers 3 to 6 refuse leave both tables as they were, and have no links; where 7 refuses them the tables hold the links too,
// and those beside the tables stand beside the refusal.
#[tactic(auto, using(refusals::proofs::Answering::two_verdicts), unfolding(row_model::specs::Checks::conditions, row_plan_model::specs::Inner::checks_before_slots))]
pub fn check(
    s: Settings,
    up: &mut [Link; DEPTHS],
    down: &mut [Link; DEPTHS],
) -> Result<Links, RefusedRow>
    ensures verdict_value { verdict_of (told result) ≡ verdict (conditions s) }
    ensures links_left { LinksLeft s (told result) up.old up.new down.old down.new }
    ensures links_there { LinksThere s result }
{
    let links = links_of(s, up, down).map_err(|refusal| RefusedRow {
        refusal,
        links: None,
    })?;
    slots_fit(&Row { s, links, up, down }).map_err(|refusal| RefusedRow {
        refusal,
        links: Some(links),
    })?;
    Ok(links)
}

// Rows of settings (document 01, 'Rows of settings'; document 02, E5): from bytes to the settings that they spell, or to the first refusal of
// numbers 1 and 2 with its place. Nobody has checked the settings yet: whoever decides on them does.
//
// No public function has a `requires`: each answers every argument, as an equation with a definition of row_read_model says. Nothing is
// written anywhere.
#![tactic(auto)]

ghost use Rattle.std.specs.Prelude.{◌≡◌};
ghost use Rattle.row_read_model.specs.Names.{heading_of, is_other};
ghost use Rattle.row_read_model.specs.Rows.{settings_of, row_under, named_row};

use crate::values::read_values;
use refusals::Refusal;
use row_read_model::Heading;
use settings_model::Settings;

mod values; // the values of a row: number 2

// Which line of names a line, without its LF, is.
pub fn heading_of(names: &[u8]) -> Heading
    ensures { result ≡ heading_of names.now }
{
    if octets::same(names, b"BO SO H NR NE OWN SINK BURST RATE HEAD DATA ACK") {
        return Heading::Twelve;
    }
    if octets::same(
        names,
        b"BO SO H NR NE OWN SINK BURST RATE HEAD DATA ACK LOSS",
    ) {
        return Heading::Thirteen;
    }
    Heading::Other
}

// The line was no line of names.
pub fn is_other(heading: Heading) -> bool
    ensures { result ≡ is_other heading }
{
    matches!(heading, Heading::Other)
}

// A row from its bytes, without its LF, under a line of names: refusals 1 and 2. An LF in it is a byte like any other.
pub fn read_row(heading: Heading, row: &[u8]) -> Result<Settings, Refusal>
    ensures { result ≡ row_under heading row.now }
{
    if is_other(heading) {
        return Err(Refusal::Names);
    }
    Ok(settings_of(read_values(heading, row)?))
}

// A row and its line of names, both as bytes without their LF: refusals 1 and 2.
pub fn read_named_row(names: &[u8], row: &[u8]) -> Result<Settings, Refusal>
    ensures { result ≡ named_row names.now row.now }
{
    read_row(heading_of(names), row)
}

// The values by their columns.
fn settings_of(v: [u64; 13]) -> Settings
    ensures { result ≡ settings_of v }
{
    Settings {
        bo: v[0],
        so: v[1],
        h: v[2],
        nr: v[3],
        ne: v[4],
        own: v[5],
        sink: v[6],
        burst: v[7],
        rate: v[8],
        head: v[9],
        payload: v[10],
        ack: v[11],
        loss: v[12],
    }
}

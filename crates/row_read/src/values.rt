// The values of a row: number 2 of document 01's table, and of document 02's E5.
ghost use Rattle.std.specs.Prelude.{◌≡◌, ◌+◌, ◌≤◌, ◌<◌, length, IfOk};
ghost use Rattle.lines.specs.Text.{fields};
ghost use Rattle.refusals.specs.Conditions.{verdict, verdict_of};
ghost use Rattle.row_read_model.specs.Names.{columns_under};
ghost use Rattle.row_read_model.specs.Rows.{columns_read, values_in, settings_of};

use refusals::Refusal;
use row_read_model::Heading;

const SPACE: u8 = 32;

// The values of a row under a line of names, LOSS 0 where the names have none: each can be read, and nothing follows them. A value is the run
// of bytes between single spaces.
pub(crate) fn read_values(heading: Heading, row: &[u8]) -> Result<[u64; 13], Refusal>
    ensures verdict_value { verdict_of result ≡ verdict (columns_read 1 (columns_under heading) (fields row.now)) }
    ensures numbers_value { IfOk result (λ numbers. settings_of numbers ≡ settings_of (values_in row.now)) }
{
    let columns = column_count(heading);
    let mut numbers = [0u64; 13];
    let mut values = row.split(|byte| *byte == SPACE);
    for k in 0..columns {
        let column = k as u32 + 1;
        let value = values.next().and_then(decimal::read_number);
        numbers[k] = value.ok_or(Refusal::Unreadable { column })?;
    }
    if values.next().is_some() {
        return Err(Refusal::TextAfter {
            column: columns as u32 + 1,
        });
    }
    Ok(numbers)
}

// How many columns a line of names names.
fn column_count(heading: Heading) -> usize
    ensures value { result ≡ length (columns_under heading) }
    ensures upper_bound { result ≤ 13 }
{
    match heading {
        Heading::Twelve => 12,
        Heading::Thirteen => 13,
        Heading::Other => 0,
    }
}

// The columns' ranges: number 3 of document 01's table.
ghost use Rattle.std.specs.Prelude.{◌≡◌, ◌+◌, ◌≤◌, ◌<◌, length};
ghost use Rattle.settings_model.specs.Columns.{column_at, in_range};
ghost use Rattle.refusals.specs.Conditions.{verdict};
ghost use Rattle.settings_model.specs.Checks.{ranged};

use refusals::Refusal;

// The lowest and the highest value of each column.
static RANGES: [(u64, u64); 13] = [
    (0, 14), // BO
    (0, 14), // SO
    (0, 12), // H
    (0, 7), // NR
    (0, 7), // NE
    (0, 1), // OWN
    (0, 12), // SINK
    (1, 255), // BURST
    (1, 4095), // RATE
    (5, 126), // HEAD
    (1, 122), // DATA
    (0, 1), // ACK
    (0, 7), // LOSS
];

// The first of some values outside its range, if any is: values of the columns behind the first `before`.
pub(crate) fn in_range(before: usize, numbers: &[u64]) -> Result<(), Refusal>
    requires { before + length numbers.now ≤ 13 }
    ensures { result ≡ verdict (ranged before numbers.now) }
{
    for (k, value) in numbers.iter().enumerate() {
        if !fits(before + k, *value) {
            return Err(Refusal::OutOfRange {
                column: (before + k + 1) as u32,
                value: *value,
            });
        }
    }
    Ok(())
}

// Whether a value is in the range of the column behind the first k.
fn fits(k: usize, value: u64) -> bool
    requires { k < 13 }
    ensures { result ≡ in_range (column_at k) value }
{
    let (lowest, highest) = RANGES[k];
    lowest <= value && value <= highest
}

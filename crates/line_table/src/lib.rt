// The lines of a plan as numbers in a lent table, nine for each line in the columns' order: KIND as a number, DEPTH and the seven figures.
// A surveyed tree's table has ROUTE behind them, which node_table puts by `put_number`.
//
// No public function has a `requires`: each takes a table of any length and any position, as equations with definitions of line_table_model
// say. Numbers are put as far as there is room; behind the end every number is 0.
#![tactic(auto)]

ghost use Rattle.std.specs.Prelude.{◌≡◌, [], ◌∷◌, get_or};
ghost use Rattle.std.proofs.lemmas.List.Edits.{sets};
ghost use Rattle.line_table_model.specs.Rows.{code_of, kind_from, numbers_of, line_in};

use links::Figures;
use measure::{FrameSymbols, Frames, Rate, Slots, Symbols};
use plan_model::{Kind, Line};

// Puts the nine numbers of a line at a position.
#[tactic(auto, unfolding(line_table_model::specs::Rows::numbers_of))]
pub fn put_line(table: &mut [u64], at: usize, line: Line)
    ensures { table.new ≡ sets table.old at (numbers_of line) }
{
    let figures = line.figures;
    put_numbers(
        table,
        at,
        &[
            code_of(line.kind),
            line.depth,
            figures.rate.0,
            figures.burst.0,
            figures.slots.0,
            figures.frames.0,
            figures.latency.0,
            figures.buffer.0,
            figures.delay.0,
        ],
    );
}

// Puts numbers one behind another from a position on, as far as there is room.
fn put_numbers(table: &mut [u64], at: usize, numbers: &[u64])
    ensures { table.new ≡ sets table.old at numbers.now }
{
    for (k, number) in numbers.iter().enumerate() {
        // A place that would wrap counts as the last of all, where no table has room.
        put_number(table, at.saturating_add(k), *number);
    }
}

// The line whose nine numbers stand at a position.
pub fn line_at(table: &[u64], at: usize) -> Line
    ensures { result ≡ line_in table.now at }
{
    let numbers = table.get(at..).unwrap_or(&[]);
    Line {
        kind: kind_from(number_at(numbers, 0)),
        depth: number_at(numbers, 1),
        figures: Figures {
            rate: Rate(number_at(numbers, 2)),
            burst: FrameSymbols(number_at(numbers, 3)),
            slots: Slots(number_at(numbers, 4)),
            frames: Frames(number_at(numbers, 5)),
            latency: Symbols(number_at(numbers, 6)),
            buffer: Frames(number_at(numbers, 7)),
            delay: Symbols(number_at(numbers, 8)),
        },
    }
}

// Puts a number at a position, where there is room.
pub fn put_number(table: &mut [u64], at: usize, x: u64)
    ensures { table.new ≡ sets table.old at (x ∷ []) }
{
    if at < table.len() {
        table[at] = x;
    }
}

// The number at a position.
pub fn number_at(table: &[u64], at: usize) -> u64
    ensures { result ≡ get_or table.now at 0 }
{
    table.get(at).copied().unwrap_or(0)
}

// KIND as a number.
#[tactic(auto, unfolding(line_table_model::specs::Rows::code_of))]
fn code_of(kind: Kind) -> u64
    ensures { result ≡ code_of kind }
{
    kind as u64
}

// A number as KIND. Stays as it is: plan_model, where KIND stands, has no function (a rule of the project), so no From stands beside it.
#[tactic(auto, unfolding(line_table_model::specs::Rows::kind_from))]
fn kind_from(n: u64) -> Kind
    ensures { result ≡ kind_from n }
{
    match n {
        0 => Kind::EndNode,
        1 => Kind::Upward,
        2 => Kind::Downward,
        _ => Kind::Sink,
    }
}

// The lines of a plan, put one behind another in a lent table. What is required here `put_lines` meets.
ghost use Rattle.std.specs.Prelude.{◌≡◌, ◌+◌, ◌≤◌};
ghost use Rattle.links.specs.Answers.{figures_answered};
ghost use Rattle.plan_model.specs.declared.Kind.TheVariants.{Sink};
ghost use Rattle.plan_model.specs.Lines.{line};
ghost use Rattle.row_model.specs.Lines.{total_delay, sink_figures, end_lines, up_lines};
ghost use Rattle.row_plan_model.specs.Inner.{RowHeld};
ghost use Rattle.row_plan_model.specs.Pages.{page, pushed, filled, down_lines_from};

use line_table::put_line;
use links::Figures;
use measure::{Frames, Slots, Symbols};
use plan_model::{Kind, Line};
use row_loads::table::link_at;
use row_plan_model::{Filled, Link, Row};

// Puts one line more.
#[tactic(auto, unfolding(row_plan_model::specs::Pages::pushed))]
fn put_next(table: &mut [u64], w: Filled, line: Line) -> Filled
    requires { w.end ≤ 225 }
    ensures table_after { page result table.new ≡ pushed (page w table.old) line }
    ensures end_value { result.end ≡ w.end + 9 }
{
    put_line(table, w.end, line);
    Filled {
        end: w.end + 9,
        delay: w.delay.plus(line.figures.delay),
    }
}

// Puts the line of a link.
fn put_link(
    table: &mut [u64],
    w: Filled,
    interval: Symbols,
    kind: Kind,
    depth: u64,
    link: Link,
) -> Filled
    requires { w.end ≤ 225 }
    ensures table_after { page result table.new ≡ pushed (page w table.old) (line kind depth (figures_answered interval link.load link.reservation)) }
    ensures end_value { result.end ≡ w.end + 9 }
{
    let figures = links::figures_of(interval, link.load, link.reservation);
    put_next(
        table,
        w,
        Line {
            kind,
            depth,
            figures,
        },
    )
}

// Puts the end nodes' line, where there are end nodes.
pub(crate) fn put_end(table: &mut [u64], w: Filled, row: &Row) -> Filled
    requires held { RowHeld row.now }
    requires end_value { w.end ≡ 0 }
    ensures table_after { page result table.new ≡ filled (page w table.old) (end_lines row.now.s) }
    ensures end_bound { result.end ≤ 9 }
{
    if row.s.ne == 0 {
        return w;
    }
    put_link(
        table,
        w,
        row.links.interval,
        Kind::EndNode,
        0,
        row.links.end,
    )
}

// Puts the upward lines, from depth H down to 1.
pub(crate) fn put_upward(table: &mut [u64], w: Filled, row: &Row) -> Filled
    requires held { RowHeld row.now }
    requires end_bound { w.end ≤ 9 }
    ensures table_after { page result table.new ≡ filled (page w table.old) (up_lines row.now.s row.now.s.h) }
    ensures end_bound_2 { result.end ≤ 117 }
{
    let mut w = w;
    for i in (1..=row.s.h).rev() {
        w = put_link(
            table,
            w,
            row.links.interval,
            Kind::Upward,
            i,
            link_at(row.up, i),
        );
    }
    w
}

// Puts the downward lines, from depth 0 to SINK − 1.
pub(crate) fn put_downward(table: &mut [u64], w: Filled, row: &Row) -> Filled
    requires held { RowHeld row.now }
    requires end_bound { w.end ≤ 117 }
    ensures table_after { page result table.new ≡ filled (page w table.old) (down_lines_from row.now.s row.now.s.sink 0) }
    ensures end_bound_2 { result.end ≤ 225 }
{
    let mut w = w;
    for i in 0..row.s.sink {
        w = put_link(
            table,
            w,
            row.links.interval,
            Kind::Downward,
            i,
            link_at(row.down, i),
        );
    }
    w
}

// Puts line S: the load that comes to the sink, its burst in frames, and the delay of all links together.
pub(crate) fn put_sink(table: &mut [u64], w: Filled, row: &Row) -> Filled
    requires held { RowHeld row.now }
    requires delay_value { w.delay ≡ total_delay row.now.s }
    requires end_bound { w.end ≤ 225 }
    ensures table_after { page result table.new ≡ pushed (page w table.old) (line Sink row.now.s.sink (sink_figures row.now.s)) }
    ensures end_bound_2 { result.end ≤ 234 }
{
    let arriving = row.links.arriving;
    let figures = Figures {
        rate: arriving.rate,
        burst: arriving.burst,
        slots: Slots(0),
        frames: Frames(0),
        latency: Symbols(0),
        buffer: measure::whole_frames(arriving.burst, row.links.interval),
        delay: w.delay,
    };
    put_next(
        table,
        w,
        Line {
            kind: Kind::Sink,
            depth: row.s.sink,
            figures,
        },
    )
}

// The words of every plan, a row's or a surveyed tree's: KIND, a line and its figures, what planning answers, and the times that settings
// set. Definitions and laws, and no function: crate plan_common answers them. Both families are built on it, and neither on the other.
#![tactic(auto)]

use links::Figures;
use measure::Symbols;

// Whose link a line is of: an end node's, a router's upward or downward one; or the sink's line, which is no link's.
#[derive(Clone, Copy)]
pub enum Kind {
    EndNode,
    Upward,
    Downward,
    Sink,
}

// One line of a row's plan: KIND, DEPTH, and the seven figures behind them.
#[derive(Clone, Copy)]
pub struct Line {
    pub kind: Kind,
    pub depth: u64,
    pub figures: Figures,
}

// One line of a surveyed tree's plan: document 01's nine columns, and ROUTE, the delay of a frame of the node's own over its whole route to
// the sink.
#[derive(Clone, Copy)]
pub struct NodeLine {
    pub line: Line,
    pub route: Symbols,
}

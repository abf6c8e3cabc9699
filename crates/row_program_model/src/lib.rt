// What is printed for a whole input, name line and rows (document 01, 'The printed plan'; document 02, E1), and the steps by which it is
// printed piece by piece. Definitions, laws and examples, P1 to P10 among them, and no function: crate row_program answers them.
#![tactic(auto)]

use row_read_model::Heading;

// What is printed for a row: its plan or an R line, or one line of English.
#[derive(Clone, Copy)]
pub enum Style {
    Plans,
    Reasons,
}

// How far an input was printed.
#[derive(Clone, Copy)]
pub enum Progress {
    // Nothing yet.
    Start,
    // All before the row that starts at `at`, under that line of names.
    Rows { heading: Heading, at: usize },
}

// The next piece: its length, and how it goes on behind it.
#[derive(Clone, Copy)]
pub struct Piece {
    pub length: usize,
    pub next: Progress,
}

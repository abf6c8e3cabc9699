// What all programs have in common: the limit of an input, what is printed of an outcome, and what a program is asked by its arguments.
// Definitions, laws and examples, and no function: crate program answers them.
#![tactic(auto)]

// The most bytes that an input may have.
pub const LIMIT: usize = 65536;

// What an argument is, by its bytes.
#[derive(Clone, Copy)]
pub enum Word {
    // `--help`
    Help,
    // `--version`
    Version,
    // `-`: standard input
    Dash,
    // another word that begins with `-`
    Dashed,
    // digits alone, also none
    Digits,
    // any other
    Other,
}

// What a program is asked.
#[derive(Clone, Copy)]
pub enum Asked {
    // To say how it is used.
    Usage,
    // To say its name and version.
    Version,
    // Nothing that it understands.
    Unclear,
    // To read its input, from the file that the last argument names or else from standard input; so many arguments are values.
    Input { named: bool, values: usize },
}

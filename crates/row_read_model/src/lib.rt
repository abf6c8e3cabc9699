// Rows of settings (document 01, 'Rows of settings'; document 02, E5): the line of names, the values of a row, and the conditions of numbers 1 and 2.
// Definitions, laws and examples, and no function: crate row_read answers them.
#![tactic(auto)]

// Which line of names a line is.
#[derive(Clone, Copy)]
pub enum Heading {
    // BO SO H NR NE OWN SINK BURST RATE HEAD DATA ACK: LOSS is 0.
    Twelve,
    // The same with LOSS behind.
    Thirteen,
    // Neither.
    Other,
}

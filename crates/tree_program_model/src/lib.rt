// What program `plan_tree` prints for its arguments and its input (document 02, E3 and E5): the plan's text, or an `R` line. Definitions, laws and
// examples, and no function: crate tree_program answers them.
#![tactic(auto)]

// The arguments BO SO HEAD DATA ACK SINK LOSS, each the number that it spells if it does, and how many there are.
#[derive(Clone, Copy)]
pub struct Arguments {
    pub bo: Option<u64>,
    pub so: Option<u64>,
    pub head: Option<u64>,
    pub payload: Option<u64>,
    pub ack: Option<u64>,
    pub sink: Option<u64>,
    pub loss: Option<u64>,
    pub count: usize,
}

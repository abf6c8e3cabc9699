// Settings (document 01, 'Rows of settings'; LOSS: document 02, E5): the thirteen values of a row, the six of them that come beside a node
// list, their columns' ranges, and the conditions of numbers 3 and 4 on both. Definitions and laws, and no function: crate settings answers
// them. Nothing here knows how settings are written.
#![tactic(auto)]

// The values of a row, by its columns: BO SO H NR NE OWN SINK BURST RATE HEAD DATA ACK LOSS.
#[derive(Clone, Copy)]
pub struct Settings {
    pub bo: u64,
    pub so: u64,
    pub h: u64,
    pub nr: u64,
    pub ne: u64,
    pub own: u64,
    pub sink: u64,
    pub burst: u64,
    pub rate: u64,
    pub head: u64,
    pub payload: u64,
    pub ack: u64,
    pub loss: u64,
}

// What is set alike on every radio of a network, in a row or beside a node list: BO SO HEAD DATA ACK LOSS.
#[derive(Clone, Copy)]
pub struct Radio {
    pub bo: u64,
    pub so: u64,
    pub head: u64,
    pub payload: u64,
    pub ack: u64,
    pub loss: u64,
}

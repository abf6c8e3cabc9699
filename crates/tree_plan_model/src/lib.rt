// What the stages of planning a surveyed tree answer and presume of one another, from a node list to the numbers of its plan: definitions
// and laws, and no function. Crates tree_list, tree_children, tree_loads, tree_slots, tree_ways and tree_decide answer them.
#![tactic(auto)]

use refusals::Refusal;

// What a list that keeps number 10 but for the sink comes to: how many nodes it has, and of each, at its number, its parent and the BURST and
// RATE of its sensor.
#[derive(Clone, Copy)]
pub struct Listed {
    pub nodes: usize,
    pub parents: [u8; 255],
    pub bursts: [u8; 255],
    pub rates: [u32; 255],
}

// What a stage comes to where the conditions up to it are kept: how many nodes the list has, and each node's kin, in three parts of 256
// numbers: its parent, its first child and its next sibling, each 0 where it has none.
#[derive(Clone, Copy)]
pub struct Stage {
    pub nodes: usize,
    pub kin: [u8; 768],
}

// Why a tree has no plan: the first refusal, and the stage of the tree where only its slots refuse it (5 or 7).
#[derive(Clone, Copy)]
pub struct RefusedTree {
    pub refusal: Refusal,
    pub stage: Option<Stage>,
}

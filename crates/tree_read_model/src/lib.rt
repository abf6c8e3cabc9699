// A node list (document 02, E3): the line of names, the four values of a node's line, and the conditions of number 10. Definitions, laws
// and examples, and no function: crate tree_read answers them line by line, and tree_plan as a whole.
#![tactic(auto)]

// The four values of a node's line.
#[derive(Clone, Copy)]
pub struct Entry {
    pub node: u64,
    pub parent: u64,
    pub burst: u64,
    pub rate: u64,
}

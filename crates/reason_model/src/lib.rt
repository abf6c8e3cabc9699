// Refusals in English (document 02, E1): definitions, laws and examples of lines and of what is read from them, and no function. Crates
// reason_print and reason_read answer them.
#![tactic(auto)]

// Number and place of the refusal whose line was read.
#[derive(Clone, Copy)]
pub struct Reason {
    pub number: u32,
    pub place: u32,
}

// What calls from bytes answer and leave in a lent buffer, whatever they plan, and those about no row and no tree: definitions, laws and
// examples, and no function. Crate calls answers them; row_calls_model and tree_calls_model say what is planned.
#![tactic(auto)]

// What a call answers: 0, 0 and the text's length where the row is planned; else number and place of the refusal, and 0.
// Stays as it is: the C interface.
#[repr(C)]
#[derive(Clone, Copy)]
pub struct Answer {
    pub number: u32,
    pub place: u32,
    pub length: u64,
}

// Number and place of a refusal; 0 and 0 where there is none.
// Stays as it is: the C interface.
#[repr(C)]
#[derive(Clone, Copy)]
pub struct Numbered {
    pub number: u32,
    pub place: u32,
}

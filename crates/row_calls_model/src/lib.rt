// What the calls that plan a row answer and leave in a lent buffer, and what they promise: definitions, laws and examples, and no function.
// Crate row_calls answers them.
#![tactic(auto)]

// What the calls that plan a surveyed tree answer and leave in a lent buffer, and what they promise: definitions, laws and examples, and no
// function. Crate tree_calls answers them.
#![tactic(auto)]

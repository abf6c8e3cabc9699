// The plan of the balanced tree as document 01 defines it: what a row's times, loads and lines are, when it is planned, and what then
// holds in every run of every tree within it ('The tree and its loads', 'The run', 'The printed plan'). Definitions, statements and
// proofs; the functions that compute a plan stand in the crate above.
#![tactic(auto)]

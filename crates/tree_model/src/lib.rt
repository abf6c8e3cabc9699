// The plan of a surveyed tree as document 02, E3, defines it: its nodes, the way from each to the sink, its loads, when it is planned, its
// lines, and what then holds in every run. Definitions, statements and proofs; the functions that compute a plan stand in the crates above.
#![tactic(auto)]

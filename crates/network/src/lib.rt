// Document 01's run of a network of links that lead to one sink, and the bounds that hold in every such run. This crate is
// mathematics: the definitions stand in specs/, the proofs in proofs/, and there is no code.
#![tactic(auto)]

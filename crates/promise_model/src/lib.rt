// Demand 3, stated once for rows and surveyed trees: what holds in every run of a network whose links have the printed reservations.
// Definitions and laws, and no function; row_model and tree_model say what a row's and a tree's network and printed figures are.
#![tactic(auto)]

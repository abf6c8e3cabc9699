// A surveyed tree's plan as numbers in a table: a row's nine for each node, and ROUTE. Definitions and laws, and no function: crate
// node_table puts and reads the numbers.
#![tactic(auto)]

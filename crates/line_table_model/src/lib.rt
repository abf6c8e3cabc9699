// A row's plan as numbers in a table: the definitions of a line's nine numbers and of the lines that stand in a table, and the laws by
// which lines that were put are read back. The laws of many lines serve every sort of line with a fixed count of numbers. No function:
// crate line_table puts and reads the numbers.
#![tactic(auto)]

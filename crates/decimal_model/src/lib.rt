// Decimal numbers in ASCII: the number that bytes spell, and the bytes that spell a number. Definitions, laws and examples, and no function:
// crate decimal answers them.
#![tactic(auto)]

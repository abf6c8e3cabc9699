// A row of settings from its bytes to its plan, or to the first refusal of numbers 1 to 7 (document 01, 'Rows of settings'). Definitions, laws
// and examples, and no function: crate row_answer answers them.
#![tactic(auto)]

// The printed plan (document 01, 'The printed plan'; document 02, E3): the text of a plan's lines, and of a refusal. Definitions, laws and
// examples, and no function: crate report answers them.
#![tactic(auto)]

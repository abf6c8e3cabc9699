// The tables by which refusals are put into English and read again (document 02, E1): the phrase of each sort of refusal, and the columns' names.
//
// No public function has a `requires`: each answers every argument, as equations with definitions of reason_model say. Texts are put into
// lent memory as far as there is room.
#![tactic(auto)]

pub mod columns; // columns by their names
pub mod phrases; // the phrase of each sort

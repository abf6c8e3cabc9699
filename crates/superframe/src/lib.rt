// Time on the air of IEEE 802.15.4 at 2.4 GHz with beacons (document 01, 'Time on the air'), and nothing about trees.
//
// No public function has a `requires`: each answers every argument, as an equation with a definition of superframe_model says.
// Where a number passes 64 bits, or an argument lies outside document 01's range, the contract names the answer.
#![tactic(auto)]

pub mod orders; // beacon interval, superframe, slot, beacon, contention period, reservable slots
pub mod exchange; // how long the exchange of one frame lasts
pub mod loss; // the same where tries of the frame may fail

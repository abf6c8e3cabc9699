// Time on the air of IEEE 802.15.4 at 2.4 GHz with beacons (document 01, 'Time on the air'): definitions, laws and examples, and no function.
// Crates superframe and superframe_reservation answer them.
#![tactic(auto)]

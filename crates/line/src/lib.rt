// Both ends joined by a line: no function of its own, only what is true of the two together (specs/).
#![tactic(auto)]

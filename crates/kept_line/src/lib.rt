// Both ends joined by a line, each kept as bytes: no function of its own, only what is true of the calls together (specs/).
#![tactic(auto)]

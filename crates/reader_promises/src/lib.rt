// What the reader promises over any bytes: no function of its own, only what is true of the crate reader's step (specs/).
#![tactic(auto)]

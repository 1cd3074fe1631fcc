// What the host promises over its runs: no function of its own, only what is true of its opening and its step (specs/).
#![tactic(auto)]

// What the module promises over any run: no function of its own, only what is true of the crate module's step (specs/).
#![tactic(auto)]

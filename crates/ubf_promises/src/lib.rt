// What UBF files promise: no function of its own, only what is true of the rules of `ubf_model`, which are those of the calls of `ubf`
// (specs/).
#![tactic(auto)]

// The library for C, Rust and Python: every call as a plain function over numbers and bytes. include/zrnkobal.h says what each takes.
// Answers are numbers and outputs are lent, since a C call takes and gives no enum with values, no Option and no Result.
#![tactic(auto)]

pub mod boards;
pub mod callers;
pub mod files;
pub mod frames;
pub mod hosts;
pub mod modules;
pub mod readers;

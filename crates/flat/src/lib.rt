// What the calls for other languages share: their answers by number, and states as records of four-byte numbers.
#![tactic(auto)]

pub mod answers;
pub mod words;

pub use answers::{DONE, DROPPED, FOUND, FRAME, NOTHING, PAST, UNKNOWN, WRITTEN};
pub use words::{eight_at, high, low, spelled, store, wide};

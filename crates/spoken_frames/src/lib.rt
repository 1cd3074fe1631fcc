// Frames in words: a line a message, its bytes as on the wire and what they say. As in `console`, these calls are proved to be safe
// and to end, and what they print is tested.
#![tactic(auto)]

mod lines;
mod words;

pub use lines::{Lines, Mark};
pub use words::Told;

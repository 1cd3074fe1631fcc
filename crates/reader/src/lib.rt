// The reader of frames: fed byte by byte, it answers nothing, a frame, or dropped.
#![tactic(auto)]

mod moves;
mod steps;

pub use steps::{Heard, Reader, Stepped, payload};

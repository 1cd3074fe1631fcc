// A host on a line for callers that keep it as bytes: a reader, what is counted, and a session side by side (record.rt), fed bytes.
#![tactic(auto)]

mod calls;
mod kept;
mod record;

pub use calls::{hear, open, view, wait};

// A module on a line that waits for the start text, for callers that keep it as bytes: a reader, what is counted, and a session side by
// side (record.rt), fed bytes.
#![tactic(auto)]

mod calls;
mod kept;
mod record;
mod views;

pub use calls::{hear, new, open, wait};
pub use views::view;

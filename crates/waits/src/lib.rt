// What a host's session waits for, what follows an event, and what a caller reads from it. All of it is decided here, nothing is sent.
#![tactic(auto)]

mod nexts;
mod views;
mod waits;

pub use nexts::{event_next, plan_next};
pub use views::{message_rate, stage_progress};
pub use waits::phase_arises;

// The rules of the module's session as definitions and laws (specs/), over the types below. It has no function but the one that
// tells an answer by number: the crate module computes what stands here.
#![tactic(auto)]

mod events;
mod phases;
mod rules;

pub use events::{Answer, Event, SMALLEST_REPLY};
pub use phases::{CLOSING_IDLE, LARGEST_FLASH, LONGEST_IDLE, Phase, Pieces, Transfer};
pub use rules::{
    ADDRESS_AT, Decision, LENGTH_AT, Numbers, PACKET_HEAD, PARAMETERS_LENGTH, STATE_SHORT,
    STATE_WHOLE, Say, TYPE_AT,
};

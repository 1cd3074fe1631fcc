// The module's session for callers that keep it as bytes: a record of words of four bytes (record.rt) at the front of a buffer.
#![tactic(auto)]

mod calls;
mod reading;
mod record;
mod writing;

pub use calls::{count_of, frame, is_open, number_of, numbered, open, session_in, wait};
pub use record::RECORD_BYTES;
pub use writing::{record_of, write};

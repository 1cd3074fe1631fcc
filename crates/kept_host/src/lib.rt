// A host's session for callers that keep it as bytes: words of four bytes each (record.rt), read and written again at each call.
#![tactic(auto)]

mod answers;
mod calls;
mod fields;
mod kept;
mod opening;
mod record;
mod words;

pub use answers::{Told, numbered, told_of};
pub use calls::{frame, line, line_rate, progress, resent, stage, wait};
pub use kept::{record_of, session_in, stands, write};
pub use opening::{Begun, begin, open};
pub use record::RECORD_BYTES;

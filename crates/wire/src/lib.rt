// A frame on the wire: head, escaped content, tail. Content is Length, device, command, payload and
// check. The reader of frames stands above this crate.
#![tactic(auto)]

mod content;
mod escape;
mod writer;

pub use content::{CONTENT_LEAST, CONTENT_MOST, PAYLOAD_MOST, is_content};
pub use escape::{ESCAPE, HEAD, TAIL, may_follow, original};
pub use writer::write;

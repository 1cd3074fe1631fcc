// The host's end of a line: a reader, a text that is listened for, and the host's session, fed bytes.
#![tactic(auto)]

mod end;
mod text;

pub use end::{HostEnd, HostStep};
pub use text::follow;

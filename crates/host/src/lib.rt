// The host's session: it loads one block into a module, answer by answer, and says how it ended.
#![tactic(auto)]

mod messages;
mod session;

pub use host_model::{Answer, Event, Phase, Progress, Wait};
pub use session::{Session, Stepped};

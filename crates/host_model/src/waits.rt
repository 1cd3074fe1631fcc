// How far a session is.
use crate::plan::{Plan, Rate, Stage};
use kinds::Kind;

// What a session waits for. Waited is the time since the last sending or fitting answer; repeats is how often the message under way
// was resent.
#[derive(Clone, Copy, Debug, PartialEq, Eq)]
pub struct Wait {
    pub plan: Plan,
    pub stage: Stage,
    pub waited: u32,
    pub repeats: u32,
}

// A load of a type that the module refused or reported as failed has ended too: its restart frame goes out at the agreed rate.
#[derive(Clone, Copy, Debug, PartialEq, Eq)]
pub enum Phase {
    Ended,
    EndedAt { kind: Kind, rate: Rate },
    Waiting(Wait),
}

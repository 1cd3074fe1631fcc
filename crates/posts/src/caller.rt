// A host on a line, and what it has resent and dropped.
ghost use Rattle.std.specs.Prelude.{◌≡◌};
ghost use Rattle.posts.specs.Caller.{caller_left, caller_of, called_step, caller_hears, caller_waits};

use crate::post::more;
use host::{Answer, Session};
use host_end::{HostEnd, HostStep};

#[derive(Clone, Copy)]
pub struct Caller {
    pub end: HostEnd,
    pub resent: usize,
    pub dropped: usize,
}

// The caller handed back, and its answer. A struct of its own and no generic pair: statements name the parts, and `.caller` says
// more than `.0`.
#[derive(Clone, Copy)]
pub struct CallerStep {
    pub caller: Caller,
    pub answer: Answer,
}

impl Caller {
    pub fn new(session: Session) -> Caller
        ensures { result ≡ caller_of session }
    {
        Caller {
            end: HostEnd::new(session),
            resent: 0,
            dropped: 0,
        }
    }

    pub fn session(self) -> Session
        ensures { result ≡ self.end.session }
    {
        self.end.session
    }

    // Takes one byte.
    pub fn hear(self, byte: u8, image: &[u8], out: &mut [u8]) -> CallerStep
        ensures { caller_left result out.new ≡ caller_hears self byte image.now out.old }
    {
        self.went(self.end.hear(byte, image, out))
    }

    // Milliseconds pass.
    pub fn wait(self, ms: u32, image: &[u8], out: &mut [u8]) -> CallerStep
        ensures { caller_left result out.new ≡ caller_waits self ms image.now out.old }
    {
        self.went(self.end.wait(ms, image, out))
    }

    // What the step of the end leaves. The session counts the repeats of the message under way only, so each one is added up here.
    #[tactic(auto, unfolding(crate::specs::Caller::called_step))]
    fn went(self, step: HostStep) -> CallerStep
        ensures { result ≡ called_step self step }
    {
        let again = self.session().resent() < step.end.session.resent();
        CallerStep {
            caller: Caller {
                end: step.end,
                resent: more(self.resent, again),
                dropped: more(self.dropped, step.dropped),
            },
            answer: step.answer,
        }
    }
}

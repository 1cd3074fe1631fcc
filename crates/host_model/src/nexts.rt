// What follows an event or an opening, before anything is sent.
use crate::events::Answer;
use crate::waits::Wait;
use refusals::Refusal;

// All stays; this is awaited from now on; a message is sent and this awaited; the session ends with an answer; or it ends with the
// restart frame and the module's byte passed on.
#[derive(Clone, Copy, Debug, PartialEq, Eq)]
pub enum Next {
    Stays,
    Waits(Wait),
    Sends(Wait),
    Ends(Answer),
    Fails { refusal: Refusal, passed: u8 },
}

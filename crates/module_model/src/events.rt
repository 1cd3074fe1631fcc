// What a session is given and what it answers.
use refusals::Refusal;

// The smallest reply buffer.
pub const SMALLEST_REPLY: usize = 64;

// A frame has arrived, with the first count bytes of the payload lent beside it; or milliseconds have passed. The count is no slice's own:
// a step takes any (`step_of`, module/Step).
#[derive(Clone, Copy)]
pub enum Event {
    Frame { command: u8, count: usize },
    Elapsed(u32),
}

// Nothing to send, so many bytes to send at the front of the reply buffer, or refused. A session tells a refusal by its name; callers for
// whom it is a number, C's among them, have an answer by number, and any number.
#[derive(Clone, Copy)]
pub enum Answer<R = Refusal> {
    Nothing,
    Sent(usize),
    Refused(R),
}

// What a session takes and what it answers.
use refusals::Refusal;

// A frame has arrived, with the first count bytes of the slice lent beside it as its payload; or a line of text, its CR LF with it, in
// the first count bytes; or milliseconds have passed. The count is no slice's own: a step takes any (`step_of`, host/Step).
#[derive(Clone, Copy, Debug, PartialEq, Eq)]
pub enum Event {
    Frame { command: u8, count: usize },
    Line { count: usize },
    Elapsed(u32),
}

// Nothing to send; so many bytes to send at the front of the output; the load is done; refused; or the module refused
// (21) or reports a failure (22): its byte passed on, and so many bytes of the restart frame to send. A session tells a refusal by its
// name; callers for whom it is a number, C's among them, have an answer by number, and any number.
#[derive(Clone, Copy, Debug, PartialEq, Eq)]
pub enum Answer<R = Refusal> {
    Nothing,
    Sent(usize),
    Done,
    Refused(R),
    Failed {
        refusal: R,
        passed: u8,
        count: usize,
    },
}

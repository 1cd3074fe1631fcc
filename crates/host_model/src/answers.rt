// What an answer of the module does.
use crate::plan::Stage;
use refusals::Refusal;

// Pass the event over; enter a stage with its message; await a stage without one; resend; give up with the module's byte passed on;
// give up for the number of pieces; done.
#[derive(Clone, Copy, Debug, PartialEq, Eq)]
pub enum Move {
    Stay,
    Enter(Stage),
    Await(Stage),
    Resend,
    Refuse { refusal: Refusal, passed: u8 },
    TooMany,
    Finish,
}

// The session's answers by number.
ghost use Rattle.std.specs.Prelude.{◌≡◌};
ghost use Rattle.host_model.specs.Views.{line_number};
ghost use Rattle.host_model.specs.Events.{numbered};
ghost use Rattle.kept_host.specs.Kept.{told_of};

use host::Answer;
use stages::{Rate, rate_number};

// The answer's number, the count to send, the byte passed on. No enum: C's zrn_host_frame gives the number and lends the other two.
#[derive(Clone, Copy, Default)]
pub struct Told {
    pub number: u8,
    pub count: usize,
    pub passed: u8,
}

// The same answer, its refusal by number. A call and no From: an impl would stand with the type, in the model.
pub fn numbered(answer: Answer) -> Answer<u8>
    ensures { result ≡ numbered answer }
{
    match answer {
        Answer::Nothing => Answer::Nothing,
        Answer::Sent(count) => Answer::Sent(count),
        Answer::Done => Answer::Done,
        Answer::Refused(refusal) => Answer::Refused(refusal.number()),
        Answer::Failed {
            refusal,
            passed,
            count,
        } => Answer::Failed {
            refusal: refusal.number(),
            passed,
            count,
        },
    }
}

// A call and no From, as PROMISES names it. A refusal has any number.
pub fn told_of(answer: Answer<u8>) -> Told
    ensures { result ≡ told_of answer }
{
    match answer {
        Answer::Nothing => Told {
            number: flat::NOTHING,
            ..Told::default()
        },
        Answer::Sent(n) => Told {
            number: flat::WRITTEN,
            count: n,
            ..Told::default()
        },
        Answer::Done => Told {
            number: flat::DONE,
            ..Told::default()
        },
        Answer::Refused(number) => Told {
            number,
            ..Told::default()
        },
        Answer::Failed {
            refusal,
            passed,
            count,
        } => Told {
            number: refusal,
            count,
            passed,
        },
    }
}

// The rate of the line by its number, 0 as it was.
pub(crate) fn line_number(rate: Option<Rate>) -> u8
    ensures { result ≡ line_number rate }
{
    rate.map_or(0, rate_number)
}

// How a load ended. begun, ended_by and said stay functions of these names, as docs/PROMISES.md names them and must-fail edits hold them.
ghost use Rattle.std.specs.Prelude.{◌≡◌};
ghost use Rattle.host_model.specs.Events.{count_in};
ghost use Rattle.posts.specs.View.{begun_of, ending_of};

use host::Answer;
use refusals::Refusal;

// A load is under way, done, or refused, as the answer told the refusal; with 21 and 22 the module's byte is passed on.
#[derive(Clone, Copy, Debug, PartialEq, Eq)]
pub enum Ending<R = Refusal> {
    UnderWay,
    Done,
    Refused { refusal: R, passed: Option<u8> },
}

// A load under way.
pub fn begun() -> Ending
    ensures { result ≡ begun_of }
{
    Ending::UnderWay
}

// What an answer of the host says of the end.
pub fn ended_by<R: Copy>(answer: Answer<R>) -> Ending<R>
    ensures { result ≡ ending_of answer }
{
    match answer {
        Answer::Nothing | Answer::Sent(_) => Ending::UnderWay,
        Answer::Done => Ending::Done,
        Answer::Refused(refusal) => Ending::Refused {
            refusal,
            passed: None,
        },
        Answer::Failed {
            refusal,
            passed,
            ..
        } => Ending::Refused {
            refusal,
            passed: Some(passed),
        },
    }
}

// How many bytes an answer says are to be sent.
pub fn said<R: Copy>(answer: Answer<R>) -> usize
    ensures { result ≡ count_in answer }
{
    match answer {
        Answer::Sent(n) => n,
        Answer::Failed { count, .. } => count,
        Answer::Nothing | Answer::Done | Answer::Refused(_) => 0,
    }
}

// The calls: each reads the session from the bytes, gives it the event and writes it back. Answers are numbers and the count is lent, since
// C calls them so.
ghost use Rattle.std.specs.Prelude.{◌≡◌, [], length};
ghost use Rattle.module.specs.Session.{takes};
ghost use Rattle.module_model.specs.Answers.{number_in, count_in, numbered};
ghost use Rattle.kept_module.specs.Kept.{session_in, opened, kept_opening, kept, kept_step};

use crate::reading::{fields_in, session_of};
use crate::record;
use crate::writing::{keep, stands, write};
use module::{Answer, Event, Session};
use refusals::Refusal;

// Opens a session over a flash: 0; 3 and a closed session; or 2, and nothing is written, where the state has no room.
#[tactic(auto, unfolding(crate::specs::Kept::kept_opening))]
pub fn open(state: &mut [u8], flash: &[u8]) -> u8
    ensures { opened result state.new ≡ kept_opening state.old flash.now }
{
    if state.len() < record::RECORD_BYTES {
        return Refusal::NoRoom.number();
    }
    let first = Session::opening(flash);
    write(first.session, state);
    number_of(numbered(first.answer))
}

// Whether the session in the bytes takes events.
pub fn is_open(state: &[u8]) -> bool
    ensures { result ≡ takes (session_in state.now) }
{
    session_in(state).is_open()
}

// The session in the bytes; in the record of none a closed one over the flash length that stands there.
#[tactic(auto, using(crate::proofs::CallLaws::session_by_law))]
pub fn session_in(state: &[u8]) -> Session
    ensures { result ≡ session_in state.now }
{
    let fields = fields_in(state);
    session_of(stands(fields, state), fields)
}

// A frame has arrived.
pub fn frame(
    state: &mut [u8],
    command: u8,
    payload: &[u8],
    flash: &mut [u8],
    reply: &mut [u8],
    count: &mut usize,
) -> u8
    ensures { kept result count.new state.new flash.new reply.new
        ≡ kept_step state.old (Event.Frame command (length payload.now)) payload.now flash.old reply.old }
{
    let event = Event::Frame {
        command,
        count: payload.len(),
    };
    step(state, event, payload, flash, reply, count)
}

// Milliseconds have passed.
pub fn wait(state: &mut [u8], ms: u32, flash: &mut [u8], reply: &mut [u8], count: &mut usize) -> u8
    ensures { kept result count.new state.new flash.new reply.new
        ≡ kept_step state.old (Event.Elapsed ms) [] flash.old reply.old }
{
    step(state, Event::Elapsed(ms), b"", flash, reply, count)
}

// Gives the session in the bytes one event.
#[tactic(auto, unfolding(crate::specs::Kept::kept_step, crate::specs::Kept::session_in, crate::specs::Kept::kept_of, crate::specs::Kept::stands))]
fn step(
    state: &mut [u8],
    event: Event,
    payload: &[u8],
    flash: &mut [u8],
    reply: &mut [u8],
    count: &mut usize,
) -> u8
    ensures { kept result count.new state.new flash.new reply.new
        ≡ kept_step state.old event payload.now flash.old reply.old }
{
    let fields = fields_in(state);
    let genuine = stands(fields, state);
    let next = session_of(genuine, fields).step(event, payload, flash, reply);
    keep(genuine, next.session, state);
    *count = count_of(next.answer);
    number_of(numbered(next.answer))
}

// The same answer, its refusal by number. A call and no From: an impl would stand with the type, and the model holds no function.
pub fn numbered(answer: Answer) -> Answer<u8>
    ensures { result ≡ numbered answer }
{
    match answer {
        Answer::Nothing => Answer::Nothing,
        Answer::Sent(count) => Answer::Sent(count),
        Answer::Refused(refusal) => Answer::Refused(refusal.number()),
    }
}

// An answer as a number, whatever number a refusal has; and the bytes that it sends, however a refusal is told.
pub fn number_of(answer: Answer<u8>) -> u8
    ensures { result ≡ number_in answer }
{
    match answer {
        Answer::Nothing => flat::NOTHING,
        Answer::Sent(_) => flat::WRITTEN,
        Answer::Refused(number) => number,
    }
}

pub fn count_of<R: Copy>(answer: Answer<R>) -> usize
    ensures { result ≡ count_in answer }
{
    match answer {
        Answer::Sent(n) => n,
        Answer::Nothing | Answer::Refused(_) => 0,
    }
}

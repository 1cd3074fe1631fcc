// The calls with bytes that keep a session. Every output number is lent and written, and answers are numbers, since C calls them so.
ghost use Rattle.std.specs.Prelude.{◌≡◌, [], length};
ghost use Rattle.host_model.specs.Views.{progress_of, line_number};
ghost use Rattle.host.specs.Session.{session_progress, session_rate, session_repeats};
ghost use Rattle.kept_host.specs.Kept.{session_in, stage_number, kept, kept_step};

use crate::answers::{line_number, numbered, told_of};
use crate::kept::{keep, session_in};
use crate::record;
use crate::words::stage_words;
use host::{Event, Phase};

// A frame has arrived.
pub fn frame(
    state: &mut [u8],
    command: u8,
    payload: &[u8],
    image: &[u8],
    out: &mut [u8],
    count: &mut usize,
    passed: &mut u8,
) -> u8
    ensures { kept result count.new passed.new state.new out.new
        ≡ kept_step state.old (Event.Frame command (length payload.now)) payload.now image.now
        out.old }
{
    step(
        state,
        Event::Frame {
            command,
            count: payload.len(),
        },
        payload,
        image,
        out,
        count,
        passed,
    )
}

// A line of text has arrived, its CR LF with it.
pub fn line(
    state: &mut [u8],
    line: &[u8],
    image: &[u8],
    out: &mut [u8],
    count: &mut usize,
    passed: &mut u8,
) -> u8
    ensures { kept result count.new passed.new state.new out.new
        ≡ kept_step state.old (Event.Line (length line.now)) line.now image.now
        out.old }
{
    step(
        state,
        Event::Line { count: line.len() },
        line,
        image,
        out,
        count,
        passed,
    )
}

// Milliseconds have passed.
pub fn wait(
    state: &mut [u8],
    ms: u32,
    image: &[u8],
    out: &mut [u8],
    count: &mut usize,
    passed: &mut u8,
) -> u8
    ensures { kept result count.new passed.new state.new out.new
        ≡ kept_step state.old (Event.Elapsed ms) [] image.now out.old }
{
    step(state, Event::Elapsed(ms), b"", image, out, count, passed)
}

// Any event: the session is read, stepped and kept.
fn step(
    state: &mut [u8],
    event: Event,
    bytes: &[u8],
    image: &[u8],
    out: &mut [u8],
    count: &mut usize,
    passed: &mut u8,
) -> u8
    ensures { kept result count.new passed.new state.new out.new
        ≡ kept_step state.old event bytes.now image.now out.old }
{
    let stepped = session_in(state).step(event, bytes, image, out);
    keep(stepped.session, state);
    let says = told_of(numbered(stepped.answer));
    *count = says.count;
    *passed = says.passed;
    says.number
}

// Packets accepted, and packets in all.
pub fn progress(state: &[u8], total: &mut usize) -> usize
    ensures { progress_of result total.new ≡ session_progress (session_in state.now) }
{
    let progress = session_in(state).progress();
    *total = progress.total;
    progress.accepted
}

// The number of the rate that the line should have now, 0 as it was.
pub fn line_rate(state: &[u8]) -> u8
    ensures { result ≡ line_number (session_rate (session_in state.now)) }
{
    line_number(session_in(state).line_rate())
}

// How often the message under way was resent.
pub fn resent(state: &[u8]) -> u32
    ensures { result ≡ session_repeats (session_in state.now) }
{
    session_in(state).resent()
}

// The number of the stage, 0 for a session that has ended.
pub fn stage(state: &[u8]) -> u8
    ensures { result ≡ stage_number (session_in state.now).phase }
{
    match session_in(state).phase {
        Phase::Ended | Phase::EndedAt { .. } => record::ENDED_STAGE,
        Phase::Waiting(wait) => stage_words(wait.stage).stage,
    }
}

// The calls: each reads the caller from the bytes, gives it a byte or a time, and puts it back. Every output number is written, as 0
// by open, hear and wait where the bytes have no room. Answers are numbers and outputs are lent, since C calls them so.
// hear and wait, and open and kept_host's, differ in one call: a closure that borrows their buffers would be no plainer.
ghost use Rattle.std.specs.Prelude.{[], ◌≡◌};
ghost use Rattle.posts.specs.Caller.{caller_left};
ghost use Rattle.kept_host.specs.Kept.{kept, opened};
ghost use Rattle.kept_caller.specs.Kept.{kept_as, kept_opening, kept_hears, kept_waits, seen_as, view_in};

use crate::kept::{caller_in, keep};
use crate::record;
use posts::{Caller, CallerStep};
use refusals::Refusal;

// Opens a session: 2 and nothing written for bytes without room; else its record, with a fresh reader and nothing counted.
#[tactic(auto, unfolding(crate::specs::Kept::kept_opening))]
pub fn open(
    state: &mut [u8],
    number: u16,
    image: &[u8],
    first: u8,
    wish: usize,
    start: u8,
    same: u8,
    out: &mut [u8],
    count: &mut usize,
) -> u8
    ensures { opened result count.new state.new out.new
        ≡ kept_opening state.old number first wish start same image.now out.old }
{
    *count = 0;
    if state.len() < record::CALLER_BYTES {
        return Refusal::NoRoom.number();
    }
    let begun = kept_host::begin(number, image, first, wish, start, same, out);
    keep(Caller::new(begun.session), state);
    let says = kept_host::told_of(begun.answer);
    *count = says.count;
    says.number
}

// A byte has arrived.
#[tactic(auto, unfolding(crate::specs::Kept::kept_hears))]
pub fn hear(
    state: &mut [u8],
    byte: u8,
    image: &[u8],
    out: &mut [u8],
    count: &mut usize,
    passed: &mut u8,
) -> u8
    ensures { kept result count.new passed.new state.new out.new
        ≡ kept_hears state.old byte image.now out.old }
{
    if state.len() < record::CALLER_BYTES {
        *count = 0;
        *passed = 0;
        return Refusal::NoRoom.number();
    }
    leave(
        caller_in(state).hear(byte, image, out),
        state,
        count,
        passed,
    )
}

// Milliseconds have passed.
#[tactic(auto, unfolding(crate::specs::Kept::kept_waits))]
pub fn wait(
    state: &mut [u8],
    ms: u32,
    image: &[u8],
    out: &mut [u8],
    count: &mut usize,
    passed: &mut u8,
) -> u8
    ensures { kept result count.new passed.new state.new out.new
        ≡ kept_waits state.old ms image.now out.old }
{
    if state.len() < record::CALLER_BYTES {
        *count = 0;
        *passed = 0;
        return Refusal::NoRoom.number();
    }
    leave(caller_in(state).wait(ms, image, out), state, count, passed)
}

// What a step leaves, apart from its output.
#[tactic(auto, using(kept_host::proofs::KeptLaws::told_numbered))]
fn leave(step: CallerStep, state: &mut [u8], count: &mut usize, passed: &mut u8) -> u8
    ensures { kept result count.new passed.new state.new [] ≡ kept_as (caller_left step []) state.old }
{
    keep(step.caller, state);
    let says = kept_host::told_of(kept_host::numbered(step.answer));
    *count = says.count;
    *passed = says.passed;
    says.number
}

// What a screen needs.
#[tactic(auto, unfolding(crate::specs::Kept::caller_in))]
pub fn view(
    state: &[u8],
    rate: &mut u8,
    accepted: &mut usize,
    total: &mut usize,
    resent: &mut usize,
    dropped: &mut usize,
) -> u8
    ensures { seen_as result rate.new accepted.new total.new resent.new dropped.new
        ≡ view_in state.now }
{
    let session = octets::behind(state, record::SESSION_PLACE);
    *rate = kept_host::line_rate(session);
    *accepted = kept_host::progress(session, total);
    *resent = flat::eight_at(state, record::RESENT_PLACE);
    *dropped = flat::eight_at(state, record::DROPPED_PLACE);
    kept_host::stage(session)
}

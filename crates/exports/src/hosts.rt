// The host's session, kept by its caller as bytes.
ghost use Rattle.std.specs.Prelude.{[], ◌≡◌, length};
ghost use Rattle.wire.specs.Write.{write_of};
ghost use Rattle.commands.specs.Commands.{restart_frame};
ghost use Rattle.host_model.specs.Views.{progress_of, line_number};
ghost use Rattle.host.specs.Session.{session_progress, session_rate, session_repeats};
ghost use Rattle.host_model.specs.declared.events.Event.TheVariants as Event;
ghost use Rattle.kept_host.specs.Kept.{stands, session_in, opened, kept_opening, kept, kept_step};
ghost use Rattle.exports.specs.Flat.{written_flat};

use crate::frames::{count_of, number_of, numbered};

#[unsafe(no_mangle)]
pub extern "C" fn zrn_host_open(
    state: &mut [u8],
    kind: u16,
    image: &[u8],
    first: u8,
    wish: usize,
    start: u8,
    same: u8,
    out: &mut [u8],
    count: &mut usize,
) -> u8
    ensures { opened result count.new state.new out.new
        ≡ kept_opening state.old kind first wish start same image.now out.old }
{
    kept_host::open(state, kind, image, first, wish, start, same, out, count)
}

#[unsafe(no_mangle)]
pub extern "C" fn zrn_host_frame(
    state: &mut [u8],
    command: u8,
    payload: &[u8],
    image: &[u8],
    out: &mut [u8],
    count: &mut usize,
    passed: &mut u8,
) -> u8
    ensures { kept result count.new passed.new state.new out.new
        ≡ kept_step state.old (Event.Frame command (length payload.now)) payload.now image.now out.old }
{
    kept_host::frame(state, command, payload, image, out, count, passed)
}

#[unsafe(no_mangle)]
pub extern "C" fn zrn_host_line(
    state: &mut [u8],
    line: &[u8],
    image: &[u8],
    out: &mut [u8],
    count: &mut usize,
    passed: &mut u8,
) -> u8
    ensures { kept result count.new passed.new state.new out.new
        ≡ kept_step state.old (Event.Line (length line.now)) line.now image.now out.old }
{
    kept_host::line(state, line, image, out, count, passed)
}

#[unsafe(no_mangle)]
pub extern "C" fn zrn_host_wait(
    state: &mut [u8],
    ms: u32,
    image: &[u8],
    out: &mut [u8],
    count: &mut usize,
    passed: &mut u8,
) -> u8
    ensures { kept result count.new passed.new state.new out.new
        ≡ kept_step state.old (Event.Elapsed ms) [] image.now out.old }
{
    kept_host::wait(state, ms, image, out, count, passed)
}

#[unsafe(no_mangle)]
pub extern "C" fn zrn_host_can_arise(state: &[u8]) -> bool
    ensures { result ≡ stands state.now }
{
    kept_host::stands(state)
}

#[unsafe(no_mangle)]
pub extern "C" fn zrn_host_progress(state: &[u8], total: &mut usize) -> usize
    ensures { progress_of result total.new ≡ session_progress (session_in state.now) }
{
    kept_host::progress(state, total)
}

#[unsafe(no_mangle)]
pub extern "C" fn zrn_host_line_rate(state: &[u8]) -> u8
    ensures { result ≡ line_number (session_rate (session_in state.now)) }
{
    kept_host::line_rate(state)
}

#[unsafe(no_mangle)]
pub extern "C" fn zrn_host_resent(state: &[u8]) -> u32
    ensures { result ≡ session_repeats (session_in state.now) }
{
    kept_host::resent(state)
}

#[unsafe(no_mangle)]
pub extern "C" fn zrn_restart_write(out: &mut [u8], count: &mut usize) -> u8
    ensures { record { answer = result; count = count.new; output = out.new }
        ≡ written_flat (write_of restart_frame out.old) }
{
    let written = commands::write_restart(out);
    *count = count_of(written);
    number_of(numbered(written))
}

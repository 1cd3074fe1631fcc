// A module on a line that waits for the start text, fed bytes, kept by its caller as bytes; and the rate of its line.
ghost use Rattle.std.specs.Prelude.{◌≡◌};
ghost use Rattle.posts.specs.Agreed.{agreed_in};
ghost use Rattle.kept_module.specs.Kept.{opened, kept};
ghost use Rattle.kept_post.specs.Kept.{kept_new, kept_opening, kept_hears, kept_waits, seen_as, view_in};

#[unsafe(no_mangle)]
pub extern "C" fn zrn_post_new(state: &mut [u8]) -> u8
    ensures { opened result state.new ≡ kept_new state.old }
{
    kept_post::new(state)
}

#[unsafe(no_mangle)]
pub extern "C" fn zrn_post_open(state: &mut [u8], flash: &[u8]) -> u8
    ensures { opened result state.new ≡ kept_opening state.old flash.now }
{
    kept_post::open(state, flash)
}

#[unsafe(no_mangle)]
pub extern "C" fn zrn_post_hear(
    state: &mut [u8],
    byte: u8,
    flash: &mut [u8],
    reply: &mut [u8],
    count: &mut usize,
) -> u8
    ensures { kept result count.new state.new flash.new reply.new
        ≡ kept_hears state.old byte flash.old reply.old }
{
    kept_post::hear(state, byte, flash, reply, count)
}

#[unsafe(no_mangle)]
pub extern "C" fn zrn_post_wait(
    state: &mut [u8],
    ms: u32,
    flash: &mut [u8],
    reply: &mut [u8],
    count: &mut usize,
) -> u8
    ensures { kept result count.new state.new flash.new reply.new
        ≡ kept_waits state.old ms flash.old reply.old }
{
    kept_post::wait(state, ms, flash, reply, count)
}

#[unsafe(no_mangle)]
pub extern "C" fn zrn_post_view(
    state: &[u8],
    number: &mut u16,
    base: &mut usize,
    extent: &mut usize,
    written: &mut usize,
    dropped: &mut usize,
    idle: &mut bool,
) -> u8
    ensures { seen_as result number.new base.new extent.new written.new dropped.new idle.new
        ≡ view_in state.now }
{
    kept_post::view(state, number, base, extent, written, dropped, idle)
}

#[unsafe(no_mangle)]
pub extern "C" fn zrn_rate_agreed(reply: &[u8]) -> u8
    ensures { result ≡ agreed_in reply.now }
{
    posts::agreed_rate(reply)
}

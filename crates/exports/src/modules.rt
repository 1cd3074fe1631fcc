// The module's session, kept by its caller as bytes.
ghost use Rattle.std.specs.Prelude.{[], ◌≡◌, length};
ghost use Rattle.module.specs.Session.{takes};
ghost use Rattle.module_model.specs.declared.events.Event.TheVariants as Event;
ghost use Rattle.kept_module.specs.Kept.{session_in, opened, kept_opening, kept, kept_step};

#[unsafe(no_mangle)]
pub extern "C" fn zrn_module_open(state: &mut [u8], flash: &[u8]) -> u8
    ensures { opened result state.new ≡ kept_opening state.old flash.now }
{
    kept_module::open(state, flash)
}

#[unsafe(no_mangle)]
pub extern "C" fn zrn_module_is_open(state: &[u8]) -> bool
    ensures { result ≡ takes (session_in state.now) }
{
    kept_module::is_open(state)
}

#[unsafe(no_mangle)]
pub extern "C" fn zrn_module_frame(
    state: &mut [u8],
    command: u8,
    payload: &[u8],
    flash: &mut [u8],
    reply: &mut [u8],
    count: &mut usize,
) -> u8
    ensures { kept result count.new state.new flash.new reply.new
        ≡ kept_step state.old (Event.Frame command (length payload.now)) payload.now flash.old reply.old }
{
    kept_module::frame(state, command, payload, flash, reply, count)
}

#[unsafe(no_mangle)]
pub extern "C" fn zrn_module_wait(
    state: &mut [u8],
    ms: u32,
    flash: &mut [u8],
    reply: &mut [u8],
    count: &mut usize,
) -> u8
    ensures { kept result count.new state.new flash.new reply.new
        ≡ kept_step state.old (Event.Elapsed ms) [] flash.old reply.old }
{
    kept_module::wait(state, ms, flash, reply, count)
}

// A host on a line, fed bytes, kept by its caller as bytes.
ghost use Rattle.std.specs.Prelude.{◌≡◌};
ghost use Rattle.posts.specs.Piece.{piece_for};
ghost use Rattle.kept_host.specs.Kept.{opened, kept};
ghost use Rattle.kept_caller.specs.Kept.{kept_opening, kept_hears, kept_waits, seen_as, view_in};

#[unsafe(no_mangle)]
pub extern "C" fn zrn_caller_open(
    state: &mut [u8],
    kind: u16,
    image: &[u8],
    first: u8,
    wish: usize,
    start: u8,
    same: u8,
    out: &mut [u8],
    count: &mut usize,
) -> u8
    ensures { opened result count.new state.new out.new
        ≡ kept_opening state.old kind first wish start same image.now out.old }
{
    kept_caller::open(state, kind, image, first, wish, start, same, out, count)
}

#[unsafe(no_mangle)]
pub extern "C" fn zrn_caller_hear(
    state: &mut [u8],
    byte: u8,
    image: &[u8],
    out: &mut [u8],
    count: &mut usize,
    passed: &mut u8,
) -> u8
    ensures { kept result count.new passed.new state.new out.new
        ≡ kept_hears state.old byte image.now out.old }
{
    kept_caller::hear(state, byte, image, out, count, passed)
}

#[unsafe(no_mangle)]
pub extern "C" fn zrn_caller_wait(
    state: &mut [u8],
    ms: u32,
    image: &[u8],
    out: &mut [u8],
    count: &mut usize,
    passed: &mut u8,
) -> u8
    ensures { kept result count.new passed.new state.new out.new
        ≡ kept_waits state.old ms image.now out.old }
{
    kept_caller::wait(state, ms, image, out, count, passed)
}

#[unsafe(no_mangle)]
pub extern "C" fn zrn_caller_view(
    state: &[u8],
    rate: &mut u8,
    accepted: &mut usize,
    total: &mut usize,
    resent: &mut usize,
    dropped: &mut usize,
) -> u8
    ensures { seen_as result rate.new accepted.new total.new resent.new dropped.new
        ≡ view_in state.now }
{
    kept_caller::view(state, rate, accepted, total, resent, dropped)
}

#[unsafe(no_mangle)]
pub extern "C" fn zrn_piece_for(baud: u32) -> usize
    ensures { result ≡ piece_for baud }
{
    posts::piece_for(baud)
}

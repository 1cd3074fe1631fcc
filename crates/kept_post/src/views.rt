// What a screen, or a file of the flash, needs of a post that is kept as bytes.
ghost use Rattle.std.specs.Prelude.{◌≡◌};
ghost use Rattle.kept_post.specs.Kept.{stand_number, type_in, seen_as, view_in};

use crate::kept::post_in;
use posts::{Stand, View};

pub fn view(
    state: &[u8],
    number: &mut u16,
    base: &mut usize,
    extent: &mut usize,
    written: &mut usize,
    dropped: &mut usize,
    idle: &mut bool,
) -> u8
    ensures { seen_as result number.new base.new extent.new written.new dropped.new idle.new
        ≡ view_in state.now }
{
    let post = post_in(state);
    let view = posts::view_of(post);
    *number = type_of(view);
    *base = view.base;
    *extent = view.extent;
    *written = view.written;
    *dropped = post.dropped;
    *idle = posts::is_idle(post);
    number_of(view.stand)
}

// How far the session is, as C's zrn_post_view answers it. No From: it would have to stand in posts, which knows no number of C's.
fn number_of(stand: Stand) -> u8
    ensures { result ≡ stand_number stand }
{
    match stand {
        Stand::Closed => 0,
        Stand::Ready => 1,
        Stand::Begun => 2,
        Stand::Loading => 3,
        Stand::Done => 4,
    }
}

// The type of the transfer; 0 where there is none.
fn type_of(view: View) -> u16
    ensures { result ≡ type_in view }
{
    view.kind.map_or(0, kinds::number_of)
}

// What a person, or a file of the flash, needs to know of a post.
ghost use Rattle.std.specs.Prelude.{◌≡◌};
ghost use Rattle.posts.specs.View.{bare_of, seen_of, cut_of, phase_view, view_of, idle_of};

use crate::post::Post;
use kinds::Kind;
use module::{Phase, Pieces, Transfer};
use module_model::LONGEST_IDLE;

// How far a session is: closed, ready, with parameters accepted, loading, or done.
#[derive(Clone, Copy, Debug, PartialEq, Eq)]
pub enum Stand {
    Closed,
    Ready,
    Begun,
    Loading,
    Done,
}

// The range of the transfer begins at base, and written bytes of it are in the flash. Without a transfer there is no kind.
// base, extent and written stand beside kind and in no Option with it, as view_of has them and C's zrn_post_view hands out all four.
#[derive(Clone, Copy, Debug, PartialEq, Eq)]
pub struct View {
    pub stand: Stand,
    pub kind: Option<Kind>,
    pub base: usize,
    pub extent: usize,
    pub written: usize,
}

#[tactic(auto, unfolding(crate::specs::View::view_of))]
pub fn view_of(post: Post) -> View
    ensures { result ≡ view_of post }
{
    let session = post.board.session;
    if !session.is_open() {
        return bare(Stand::Closed);
    }
    phase_view(session.phase)
}

fn phase_view(phase: Phase) -> View
    ensures { result ≡ phase_view phase }
{
    match phase {
        Phase::Closed => bare(Stand::Closed),
        Phase::Ready => bare(Stand::Ready),
        Phase::Begun(transfer) => seen(Stand::Begun, transfer, 0),
        Phase::Loading {
            pieces,
            written,
            ..
        } => cut(Stand::Loading, pieces, written),
        Phase::Done { pieces, written } => cut(Stand::Done, pieces, written),
    }
}

fn bare(stand: Stand) -> View
    ensures { result ≡ bare_of stand }
{
    View {
        stand,
        kind: None,
        base: 0,
        extent: 0,
        written: 0,
    }
}

fn cut(stand: Stand, pieces: Pieces, written: usize) -> View
    ensures { result ≡ cut_of stand pieces written }
{
    seen(stand, pieces.transfer, written)
}

fn seen(stand: Stand, transfer: Transfer, written: usize) -> View
    ensures { result ≡ seen_of stand transfer written }
{
    View {
        stand,
        kind: Some(transfer.kind),
        base: kinds::base_of(transfer.kind) as usize,
        extent: transfer.extent,
        written,
    }
}

// Whether a closed session was closed by its idle sum, and not by a restart.
pub fn is_idle(post: Post) -> bool
    ensures { result ≡ idle_of post }
{
    post.board.session.idle > LONGEST_IDLE
}

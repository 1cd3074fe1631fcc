// A post read from bytes, and put there again.
ghost use Rattle.std.specs.Prelude.{◌≡◌};
ghost use Rattle.flat.specs.Words.{spelled_all};
ghost use Rattle.kept_post.specs.Kept.{counts_of, post_kept, post_in};

use crate::record;
use board_end::Board;
use posts::Post;

// The post that some bytes keep.
#[tactic(auto, unfolding(crate::specs::Kept::post_in))]
pub(crate) fn post_in(state: &[u8]) -> Post
    ensures { result ≡ post_in state.now }
{
    Post {
        board: Board {
            reader: kept_reader::reader_in(state),
            session: kept_module::session_in(octets::behind(state, record::SESSION_PLACE)),
        },
        seen: octets::four_at(state, record::SEEN_PLACE) as usize,
        dropped: flat::eight_at(state, record::DROPPED_PLACE),
    }
}

// Puts a post into some bytes.
#[tactic(auto, unfolding(crate::specs::Kept::post_kept))]
pub(crate) fn keep(post: Post, state: &mut [u8])
    ensures { state.new ≡ post_kept post state.old }
{
    kept_reader::keep(post.board.reader, state);
    octets::copy(&counts_of(post), state, record::SEEN_PLACE);
    let session = kept_module::record_of(post.board.session);
    octets::copy(&session, state, record::SESSION_PLACE);
}

// What is counted, as bytes.
fn counts_of(post: Post) -> [u8; record::COUNTS_BYTES]
    ensures { result ≡ spelled_all (counts_of post) }
{
    flat::spelled(&[
        flat::low(post.seen),
        flat::low(post.dropped),
        flat::high(post.dropped),
    ])
}

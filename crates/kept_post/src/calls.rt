// The calls: each reads the post from the bytes, gives it a byte or a time, and puts it back. Every output number is written, as 0
// where the bytes have no room. Answers are numbers and outputs are lent, since C calls them so.
// hear and wait, and new and open, differ in one call: a closure that borrows their buffers would be no plainer.
ghost use Rattle.std.specs.Prelude.{[], ◌≡◌};
ghost use Rattle.posts.specs.Post.{post_left};
ghost use Rattle.kept_module.specs.Kept.{kept, opened};
ghost use Rattle.kept_post.specs.Kept.{kept_as, kept_new, kept_opening, kept_hears, kept_waits};

use crate::kept::{keep, post_in};
use crate::record;
use posts::{Post, PostStep};
use refusals::Refusal;

// Makes a post that waits; 2 and nothing written for bytes without room.
#[tactic(auto, unfolding(crate::specs::Kept::kept_new))]
pub fn new(state: &mut [u8]) -> u8
    ensures { opened result state.new ≡ kept_new state.old }
{
    if state.len() < record::POST_BYTES {
        return Refusal::NoRoom.number();
    }
    keep(Post::waiting(), state);
    flat::NOTHING
}

// Makes a post with a session open over the flash, or one that waits where none can be opened; 2 as above.
#[tactic(auto, unfolding(crate::specs::Kept::kept_opening))]
pub fn open(state: &mut [u8], flash: &[u8]) -> u8
    ensures { opened result state.new ≡ kept_opening state.old flash.now }
{
    if state.len() < record::POST_BYTES {
        return Refusal::NoRoom.number();
    }
    keep(Post::waiting().opened(flash), state);
    flat::NOTHING
}

// A byte has arrived.
#[tactic(auto, unfolding(crate::specs::Kept::kept_hears))]
pub fn hear(state: &mut [u8], byte: u8, flash: &mut [u8], reply: &mut [u8], count: &mut usize) -> u8
    ensures { kept result count.new state.new flash.new reply.new
        ≡ kept_hears state.old byte flash.old reply.old }
{
    if state.len() < record::POST_BYTES {
        *count = 0;
        return Refusal::NoRoom.number();
    }
    leave(post_in(state).hear(byte, flash, reply), state, count)
}

// Milliseconds have passed.
#[tactic(auto, unfolding(crate::specs::Kept::kept_waits))]
pub fn wait(state: &mut [u8], ms: u32, flash: &mut [u8], reply: &mut [u8], count: &mut usize) -> u8
    ensures { kept result count.new state.new flash.new reply.new
        ≡ kept_waits state.old ms flash.old reply.old }
{
    if state.len() < record::POST_BYTES {
        *count = 0;
        return Refusal::NoRoom.number();
    }
    leave(post_in(state).wait(ms, flash, reply), state, count)
}

// What a step leaves, apart from flash and reply.
fn leave(step: PostStep, state: &mut [u8], count: &mut usize) -> u8
    ensures { kept result count.new state.new [] [] ≡ kept_as (post_left step [] []) state.old }
{
    keep(step.post, state);
    *count = kept_module::count_of(step.answer);
    kept_module::number_of(kept_module::numbered(step.answer))
}

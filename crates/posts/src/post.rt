// A module on a line: without a session it waits for the start text, answers it and opens one.
ghost use Rattle.std.specs.Prelude.{◌≡◌};
ghost use Rattle.posts.specs.Post.{
  post_left,
  post_with,
  more_of,
  waiting_post,
  opened_post,
  is_open,
  begins,
  listens,
  post_hears,
  post_waits,
};

use board_end::{Board, BoardStep};
use module::{Answer, Session};

// Seen is how much of the start text has been heard; dropped counts the frames that the reader has dropped.
#[derive(Clone, Copy)]
pub struct Post {
    pub board: Board,
    pub seen: usize,
    pub dropped: usize,
}

// The post handed back, and its answer. A struct of its own and no generic pair: statements name the parts, and `.post` says
// more than `.0`.
#[derive(Clone, Copy)]
pub struct PostStep {
    pub post: Post,
    pub answer: Answer,
}

impl Post {
    // A post that waits; an opening over nothing gives a closed session.
    #[tactic(auto, unfolding(crate::specs::Post::waiting_post))]
    pub fn waiting() -> Post
        ensures { result ≡ waiting_post }
    {
        Post {
            board: Board::new(Session::opening(b"").session),
            seen: 0,
            dropped: 0,
        }
    }

    // A post with a session open over the flash.
    #[tactic(auto, unfolding(crate::specs::Post::opened_post))]
    pub fn opened(self, flash: &[u8]) -> Post
        ensures { result ≡ opened_post self flash.now }
    {
        Post {
            board: Board::new(Session::opening(flash).session),
            seen: 0,
            dropped: self.dropped,
        }
    }

    pub fn is_open(self) -> bool
        ensures { result ≡ is_open self }
    {
        self.board.session.is_open()
    }

    // Takes one byte. While a session is open texts are not looked at.
    #[tactic(auto, unfolding(crate::specs::Post::post_hears))]
    pub fn hear(self, byte: u8, flash: &mut [u8], reply: &mut [u8]) -> PostStep
        ensures { post_left result flash.new reply.new
            ≡ post_hears self byte flash.old reply.old }
    {
        if !self.is_open() {
            let seen = host_end::follow(&commands::START_TEXT, self.seen, byte);
            return self.listens(seen, flash, reply);
        }
        Post::went(self.board.hear(byte, flash, reply), self.dropped)
    }

    // Milliseconds pass. Without a session nobody counts them.
    #[tactic(auto, unfolding(crate::specs::Post::post_waits))]
    pub fn wait(self, ms: u32, flash: &mut [u8], reply: &mut [u8]) -> PostStep
        ensures { post_left result flash.new reply.new
            ≡ post_waits self ms flash.old reply.old }
    {
        if !self.is_open() {
            return self.says(Answer::Nothing);
        }
        Post::went(self.board.wait(ms, flash, reply), self.dropped)
    }

    // What the step of the board leaves; texts are looked at anew once its session has closed. The count so far comes by itself: for it alone
    // the post would be copied with each byte.
    fn went(step: BoardStep, dropped: usize) -> PostStep
        ensures { result
            ≡ record { post = post_with step.board 0 (more_of dropped step.dropped); answer = step.answer } }
    {
        PostStep {
            post: Post {
                board: step.board,
                seen: 0,
                dropped: more(dropped, step.dropped),
            },
            answer: step.answer,
        }
    }

    // So much of the start text has been heard; with all of it a session begins.
    #[tactic(auto, unfolding(crate::specs::Post::listens))]
    fn listens(self, seen: usize, flash: &[u8], reply: &mut [u8]) -> PostStep
        ensures { post_left result flash.now reply.new
            ≡ listens self seen flash.now reply.old }
    {
        if seen == commands::START_TEXT.len() {
            return self.begins(flash, reply);
        }
        Post { seen, ..self }.says(Answer::Nothing)
    }

    // The start text is whole: its answer, and a session. Without room for the answer nothing happens.
    #[tactic(auto, unfolding(crate::specs::Post::begins))]
    fn begins(self, flash: &[u8], reply: &mut [u8]) -> PostStep
        ensures { post_left result flash.now reply.new
            ≡ begins self flash.now reply.old }
    {
        if reply.len() < commands::START_ANSWER.len() {
            return self.says(Answer::Nothing);
        }
        octets::copy(&commands::START_ANSWER, reply, 0);
        self.opened(flash)
            .says(Answer::Sent(commands::START_ANSWER.len()))
    }

    fn says(self, answer: Answer) -> PostStep
        ensures { result ≡ record { post = self; answer = answer } }
    {
        PostStep { post: self, answer }
    }
}

// One more, where something happened.
#[tactic(auto, unfolding(crate::specs::Post::more_of))]
pub(crate) fn more(count: usize, happened: bool) -> usize
    ensures { result ≡ more_of count happened }
{
    count.wrapping_add(usize::from(happened))
}

// A module on a line: the reader of what arrives, and the session.
ghost use Rattle.std.specs.Prelude.{◌≡◌};
ghost use Rattle.board_end.specs.Board.{board_of, board_left, unheard_step, frame_heard, board_hears, board_waits, beside};
ghost use Rattle.module.specs.Step.{step_of};

use module::{Answer, Event, Session};
use reader::{Heard, Reader};

#[derive(Clone, Copy)]
pub struct Board {
    pub reader: Reader,
    pub session: Session,
}

// The board after a byte or a time, the session's answer, and whether the reader has dropped a frame, of which board_left speaks beside
// the answer. A struct of its own and no generic one: statements name the parts, and `.board` says more than `.0`.
#[derive(Clone, Copy)]
pub struct BoardStep {
    pub board: Board,
    pub answer: Answer,
    pub dropped: bool,
}

impl Board {
    // A board with a fresh reader.
    pub fn new(session: Session) -> Board
        ensures { result ≡ board_of session }
    {
        Board {
            reader: Reader::new(),
            session,
        }
    }

    // Takes one byte from the line. A frame that it completes is given to the session.
    #[tactic(auto, unfolding(crate::specs::Board::board_hears))]
    pub fn hear(self, byte: u8, flash: &mut [u8], reply: &mut [u8]) -> BoardStep
        ensures { board_left result flash.new reply.new
            ≡ board_hears self byte flash.old reply.old }
    {
        let read = self.reader.step(byte);
        let next = Board {
            reader: read.reader,
            ..self
        };
        match read.heard {
            Heard::Nothing => next.unheard(false),
            Heard::Frame { command, count } => next.frame(command, count, flash, reply),
            Heard::Dropped => next.unheard(true),
        }
    }

    // Milliseconds pass.
    #[tactic(auto, unfolding(crate::specs::Board::board_waits))]
    pub fn wait(self, ms: u32, flash: &mut [u8], reply: &mut [u8]) -> BoardStep
        ensures { board_left result flash.new reply.new
            ≡ board_waits self ms flash.old reply.old }
    {
        self.takes(Event::Elapsed(ms), b"", flash, reply)
    }

    // A byte that completes no frame leaves the session as it was.
    fn unheard(self, dropped: bool) -> BoardStep
        ensures { result ≡ unheard_step self.reader self.session dropped }
    {
        BoardStep {
            board: self,
            answer: Answer::Nothing,
            dropped,
        }
    }

    // The session takes a frame that the reader has handed out; its payload stands in the reader's store.
    #[tactic(auto, unfolding(crate::specs::Board::frame_heard))]
    fn frame(self, command: u8, count: usize, flash: &mut [u8], reply: &mut [u8]) -> BoardStep
        ensures { board_left result flash.new reply.new
            ≡ frame_heard self.reader self.session command count flash.old reply.old }
    {
        let payload = reader::payload(&self.reader.store, count);
        self.takes(Event::Frame { command, count }, payload, flash, reply)
    }

    // The session takes an event, beside the reader.
    fn takes(self, event: Event, payload: &[u8], flash: &mut [u8], reply: &mut [u8]) -> BoardStep
        ensures { board_left result flash.new reply.new
            ≡ beside self.reader (step_of self.session event payload.now flash.old reply.old) }
    {
        let next = lent::lend(self.session, event, payload, flash, reply);
        BoardStep {
            board: Board {
                session: next.session,
                ..self
            },
            answer: next.answer,
            dropped: false,
        }
    }
}

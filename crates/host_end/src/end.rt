// A host on a line: the reader of what arrives, how much of the answer to the start text has been heard, and the session.
ghost use Rattle.std.specs.Prelude.{◌≡◌};
ghost use Rattle.host_end.specs.HostEnd.{end_of, host_left, host_step, frame_heard, line_heard, host_hears, host_waits};

use crate::text::follow;
use host::{Answer, Event, Session};
use reader::{Heard, Reader};

#[derive(Clone, Copy)]
pub struct HostEnd {
    pub reader: Reader,
    pub seen: usize,
    pub session: Session,
}

// The host's end after a byte or a time, the session's answer, and whether the reader has dropped a frame: counted beside the answer, which
// may come with the same byte. A struct of its own and no generic one: statements name the parts, and `.end` says more than `.0`.
#[derive(Clone, Copy)]
pub struct HostStep {
    pub end: HostEnd,
    pub answer: Answer,
    pub dropped: bool,
}

impl HostEnd {
    // A host's end with a fresh reader that has heard no text.
    pub fn new(session: Session) -> HostEnd
        ensures { result ≡ end_of session }
    {
        HostEnd {
            reader: Reader::new(),
            seen: 0,
            session,
        }
    }

    // Takes one byte from the line. A frame that it completes, or the answer to the start text, is given to the session.
    #[tactic(auto, unfolding(crate::specs::HostEnd::host_hears))]
    pub fn hear(self, byte: u8, image: &[u8], out: &mut [u8]) -> HostStep
        ensures { host_left result out.new ≡ host_hears self byte image.now out.old }
    {
        let read = self.reader.step(byte);
        let end = HostEnd {
            reader: read.reader,
            seen: follow(&commands::START_ANSWER, self.seen, byte),
            session: self.session,
        };
        match read.heard {
            Heard::Nothing => end.line(false, image, out),
            Heard::Frame { command, count } => end.frame(command, count, image, out),
            Heard::Dropped => end.line(true, image, out),
        }
    }

    // Milliseconds pass.
    #[tactic(auto, unfolding(crate::specs::HostEnd::host_waits))]
    pub fn wait(self, ms: u32, image: &[u8], out: &mut [u8]) -> HostStep
        ensures { host_left result out.new ≡ host_waits self ms image.now out.old }
    {
        let next = self.session.step(Event::Elapsed(ms), b"", image, out);
        self.leaves(next.session, next.answer, false)
    }

    fn leaves(self, session: Session, answer: Answer, dropped: bool) -> HostStep
        ensures { result ≡ host_step self.reader self.seen session answer dropped }
    {
        HostStep {
            end: HostEnd { session, ..self },
            answer,
            dropped,
        }
    }

    // The session takes a frame that the reader has handed out; its payload stands in the reader's store.
    #[tactic(auto, unfolding(crate::specs::HostEnd::frame_heard))]
    fn frame(self, command: u8, count: usize, image: &[u8], out: &mut [u8]) -> HostStep
        ensures { host_left result out.new
            ≡ frame_heard self.reader self.seen self.session command count image.now out.old }
    {
        let payload = reader::payload(&self.reader.store, count);
        let next = self
            .session
            .step(Event::Frame { command, count }, payload, image, out);
        self.leaves(next.session, next.answer, false)
    }

    // No frame: the session takes the answer to the start text if this byte was its last.
    #[tactic(auto, unfolding(crate::specs::HostEnd::line_heard))]
    fn line(self, dropped: bool, image: &[u8], out: &mut [u8]) -> HostStep
        ensures { host_left result out.new
            ≡ line_heard self.reader self.seen self.session dropped image.now out.old }
    {
        let text = &commands::START_ANSWER;
        if self.seen == text.len() {
            let next = self
                .session
                .step(Event::Line { count: text.len() }, text, image, out);
            return self.leaves(next.session, next.answer, dropped);
        }
        self.leaves(self.session, Answer::Nothing, dropped)
    }
}

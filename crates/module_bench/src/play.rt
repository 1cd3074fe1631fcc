// The story, step by step.
use crate::flash::show_flash;
use crate::story::{Lent, STORY, Step};
use console::{Hex, Row};
use module::{Event, Session, Stepped};
use module_model::SMALLEST_REPLY;
use spoken_frames::{Lines, Mark};
use spoken_module::{PLACES, show_answer, show_opening, show_session};

// The session, its flash, and where the lines go.
#[derive(Drop)]
struct Bench<'a, P: Print> {
    lines: Lines<'a, P>,
    session: Session,
    flash: &'a mut [u8],
}

pub(crate) fn play(rt: &impl Print, flash: &mut [u8]) {
    let mut bench = Bench {
        lines: Lines { rt, places: PLACES },
        session: Session::opening(b"").session,
        flash,
    };
    for &step in STORY {
        bench.step(step);
    }
}

// Replies go into rooms of a known size, and into no Vec, which could fail.
impl<P: Print> Bench<'_, P> {
    fn step(&mut self, step: Step) {
        match step {
            Step::Title(words) => self.lines.title(words),
            Step::Open => {
                let opened = Session::opening(self.flash);
                self.opens(opened);
            }
            Step::OpenOverNothing => self.opens(Session::opening(b"")),
            Step::Frame(lent, command, payload, words) => {
                self.hears(lent, command, payload, words);
            }
            Step::Pass(ms) => self.waits(ms),
            Step::Stands => show_session(self.lines, self.session),
            Step::Flash(count) => self.shows_flash(count),
        }
    }

    fn shows_flash(&self, count: usize) {
        show_flash(self.lines.rt, count, self.flash);
    }

    // Says how an opening went.
    fn opens(&mut self, opened: Stepped) {
        self.session = opened.session;
        show_opening(self.lines, opened.answer);
        show_session(self.lines, self.session);
    }

    // A frame arrives.
    fn hears(&mut self, lent: Lent, command: u8, payload: &[u8], words: &str) {
        let rt = self.lines.rt;
        let row = Row {
            bytes: payload,
            places: PLACES - 1,
        };
        let order = [command];
        let _ = println!(rt; "> {}{row}  {words}", Hex(&order));
        let event = Event::Frame {
            command,
            count: payload.len(),
        };
        let session = self.session;
        let mut reply = [0u8; SMALLEST_REPLY];
        let stepped = match lent {
            Lent::All => session.step(event, payload, self.flash, &mut reply),
            Lent::ShortReply => session.step(
                event,
                payload,
                self.flash,
                &mut reply[..SMALLEST_REPLY - 1],
            ),
            Lent::SmallFlash => session.step(event, payload, &mut [0xFF; 100], &mut reply),
            Lent::NoFlash => session.step(event, payload, &mut [], &mut reply),
        };
        self.answers(stepped, &reply);
    }

    // Milliseconds pass.
    fn waits(&mut self, ms: u32) {
        self.lines.passed(Mark::Sent, ms);
        let mut reply = [0u8; SMALLEST_REPLY];
        let stepped = self
            .session
            .step(Event::Elapsed(ms), b"", self.flash, &mut reply);
        self.answers(stepped, &reply);
        show_session(self.lines, self.session);
    }

    // What a step leaves.
    fn answers(&mut self, stepped: Stepped, reply: &[u8]) {
        self.session = stepped.session;
        show_answer(self.lines, stepped.answer, reply);
    }
}

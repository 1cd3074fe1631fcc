// What the host answers and where its session stands, in words. As in `console`, these calls are proved to be safe and to end, and what
// they print is tested.
#![tactic(auto)]

use console::Hex;
use host::{Answer, Phase, Session, Wait};
use spoken_frames::{Lines, Mark, Told};
use stages::{Rate, Stage};
use std::fmt;

// The most bytes that a line shows; that is a frame with parameters.
pub const PLACES: usize = 17;

// The number of a refusal by the module; the byte that is passed on beside it is an ACK, and beside any other a State.
const MODULE_REFUSED: u8 = 21;

// What a call answers: the message to send, nothing, or how the load ends, a refusal by name or by any number.
pub fn show_answer<P: Print, R: Copy + Into<u8>>(lines: Lines<P>, answer: Answer<R>, out: &[u8]) {
    match answer {
        Answer::Nothing => lines.words_only(Mark::Sent, &"nothing"),
        Answer::Sent(n) => lines.message(Mark::Sent, octets::part(out, 0, n)),
        Answer::Done => lines.words_only(Mark::Sent, &"nothing: the load is done"),
        Answer::Refused(refusal) => lines.words_only(Mark::Sent, &Told(refusal.into())),
        Answer::Failed {
            refusal,
            passed,
            count,
        } => {
            lines.message(Mark::Sent, octets::part(out, 0, count));
            let number = refusal.into();
            lines.words_only(Mark::Sent, &PassedOn { number, passed });
        }
    }
}

// The module's byte beside a refusal.
#[derive(Clone, Copy)]
struct PassedOn {
    number: u8,
    passed: u8,
}

impl fmt::Display for PassedOn {
    fn fmt<W: fmt::Write>(&self, f: &mut fmt::Formatter<W>) -> fmt::Result {
        let what = match self.number {
            MODULE_REFUSED => "ACK",
            _ => "State",
        };
        let passed = [self.passed];
        write!(
            f,
            "{}, {what} {} passed on",
            Told(self.number),
            Hex(&passed)
        )
    }
}

// What a session waits for, how far it is, and the rate that the line should have.
pub fn show_session<P: Print>(lines: Lines<P>, session: Session) {
    lines.words_only(Mark::Session, &Standing(session));
}

#[derive(Clone, Copy)]
struct Standing(Session);

impl fmt::Display for Standing {
    fn fmt<W: fmt::Write>(&self, f: &mut fmt::Formatter<W>) -> fmt::Result {
        let session = self.0;
        match session.phase {
            Phase::Ended => f.write_str("ended"),
            Phase::EndedAt { .. } => write!(f, "ended{}", Line(session.line_rate())),
            Phase::Waiting(wait) => {
                write!(f, "awaits {}", Awaited(wait.stage))?;
                let progress = session.progress();
                if progress.total != 0 {
                    write!(f, "; accepted {} of {}", progress.accepted, progress.total)?;
                }
                write!(f, "{}", Line(session.line_rate()))?;
                write!(f, "{}", Tries { session, wait })
            }
        }
    }
}

// What a session waits for.
#[derive(Clone, Copy)]
struct Awaited(Stage);

impl fmt::Display for Awaited {
    fn fmt<W: fmt::Write>(&self, f: &mut fmt::Formatter<W>) -> fmt::Result {
        match self.0 {
            Stage::Text => f.write_str("the answer to the start text"),
            Stage::Asking(_) => f.write_str("the answer to the rate"),
            Stage::Declaring(_) => f.write_str("the answer to the parameters"),
            Stage::Sending { number, .. } => write!(f, "the answer to packet {number}"),
            Stage::Noticing { .. } => f.write_str("the notice"),
            Stage::Restarting { .. } => f.write_str("the answer to the restart"),
        }
    }
}

// The rate that the line should have, in bits a second.
#[derive(Clone, Copy)]
struct Line(Option<Rate>);

impl fmt::Display for Line {
    fn fmt<W: fmt::Write>(&self, f: &mut fmt::Formatter<W>) -> fmt::Result {
        match self.0 {
            None => f.write_str("; line as it was"),
            Some(rate) => write!(f, "; line at {rate}"),
        }
    }
}

// How often the message was resent, and how long its answer is awaited.
#[derive(Clone, Copy)]
struct Tries {
    session: Session,
    wait: Wait,
}

impl fmt::Display for Tries {
    fn fmt<W: fmt::Write>(&self, f: &mut fmt::Formatter<W>) -> fmt::Result {
        let resent = self.session.resent();
        if resent != 0 {
            write!(f, "; resent {resent}")?;
        }
        let waited = self.wait.waited;
        if waited != 0 {
            write!(f, "; waited {waited} ms")?;
        }
        Ok(())
    }
}

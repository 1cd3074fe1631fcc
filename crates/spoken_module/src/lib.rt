// What the module answers and where its session stands, in words. As in `console`, these calls are proved to be safe and to end, and what
// they print is tested.
#![tactic(auto)]

use module::{Answer, Phase, Session};
use spoken_frames::{Lines, Mark, Told};
use std::fmt;

// The most bytes that a line shows; that is a command and ten bytes of payload.
pub const PLACES: usize = 11;

// The frames that are sent, or that there are none, or the refusal, by name or by any number.
pub fn show_answer<P: Print, R: Copy + Into<u8>>(lines: Lines<P>, answer: Answer<R>, reply: &[u8]) {
    match answer {
        Answer::Nothing => lines.words_only(Mark::Heard, &"no answer"),
        Answer::Sent(n) => lines.message(Mark::Heard, octets::part(reply, 0, n)),
        Answer::Refused(refusal) => show_refusal(lines, refusal),
    }
}

// An opening sends nothing.
pub fn show_opening<P: Print, R: Copy + Into<u8>>(lines: Lines<P>, answer: Answer<R>) {
    match answer {
        Answer::Nothing => lines.words_only(Mark::Heard, &"opened"),
        Answer::Sent(_) => lines.words_only(Mark::Heard, &"UNKNOWN"),
        Answer::Refused(refusal) => show_refusal(lines, refusal),
    }
}

// A refusal's number and words.
fn show_refusal<P: Print>(lines: Lines<P>, refusal: impl Into<u8>) {
    lines.words_only(Mark::Heard, &Told(refusal.into()));
}

// Where a session stands, and its idle sum while it takes events.
pub fn show_session<P: Print>(lines: Lines<P>, session: Session) {
    lines.words_only(Mark::Session, &Standing(session));
}

#[derive(Clone, Copy)]
struct Standing(Session);

impl fmt::Display for Standing {
    fn fmt<W: fmt::Write>(&self, f: &mut fmt::Formatter<W>) -> fmt::Result {
        let session = self.0;
        write!(f, "{}", HowFar(session.phase))?;
        if session.is_open() {
            write!(f, ", idle {} ms", session.idle)?;
        }
        Ok(())
    }
}

// How far a session is.
#[derive(Clone, Copy)]
struct HowFar(Phase);

impl fmt::Display for HowFar {
    fn fmt<W: fmt::Write>(&self, f: &mut fmt::Formatter<W>) -> fmt::Result {
        match self.0 {
            Phase::Closed => f.write_str("closed"),
            Phase::Ready => f.write_str("open: ready, no transfer"),
            Phase::Begun(transfer) => write!(
                f,
                "open: wants packet 1 of {} bytes",
                transfer.extent
            ),
            Phase::Loading {
                number,
                written,
                ..
            } => write!(
                f,
                "open: loading, packet {number} accepted, {written} bytes written"
            ),
            Phase::Done { written, .. } => write!(f, "open: done, {written} bytes written"),
        }
    }
}

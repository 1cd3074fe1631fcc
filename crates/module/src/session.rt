// The session: opened over a flash, stepped by value, handed back beside the answer.
ghost use Rattle.std.specs.Prelude.{◌≡◌, true};
ghost use Rattle.module.specs.Session.{opening_of, stepped, takes};
ghost use Rattle.module_model.specs.Phases.{openable, alive, fits, cuts, loading_arises, done_arises, held};
ghost use Rattle.module.specs.Step.{left, frame_step, time_step, step_of};

use crate::open::Open;
use crate::replies::{Reply, send};
use crate::rules::store;
use commands::{LARGEST_PACKET, LARGEST_TOTAL};
use module_model::{
    Answer, CLOSING_IDLE, Event, LARGEST_FLASH, LONGEST_IDLE, Phase, Pieces, Transfer,
};
use refusals::Refusal;

// The idle sum after a frame.
const SUM_ANEW: u32 = 0;

// The length of the flash at the opening, the milliseconds since the last frame, and how far the session is.
#[derive(Clone, Copy)]
pub struct Session {
    pub flash: usize,
    pub idle: u32,
    pub phase: Phase,
}

// The session handed back, and its answer. A struct of its own and no generic pair: README and the statements name the parts, and
// `.session` says more than `.0`.
#[derive(Clone, Copy)]
pub struct Stepped {
    pub session: Session,
    pub answer: Answer,
}

impl Session {
    // Opens a session over a flash. A refused opening gives a closed session that keeps the length.
    #[tactic(auto, unfolding(crate::specs::Session::opening_of))]
    pub fn opening(flash: &[u8]) -> Stepped
        ensures { result ≡ opening_of flash.now }
    {
        let closed = Session {
            flash: flash.len(),
            idle: 0,
            phase: Phase::Closed,
        };
        if can_open(closed.flash) {
            return Session {
                phase: Phase::Ready,
                ..closed
            }
            .answers(Answer::Nothing);
        }
        closed.answers(Answer::Refused(Refusal::WrongLength))
    }

    // Whether the session takes events: it is open, and its numbers could arise.
    #[tactic(auto, unfolding(crate::specs::Session::takes))]
    pub fn is_open(self) -> bool
        ensures { result ≡ takes self }
    {
        is_alive(self.flash, self.idle) && is_held(self.phase, self.flash)
    }

    // Takes one event. The payload is the first count bytes of the slice, or all of it where it is shorter.
    #[tactic(auto, using(crate::proofs::Room::wider, crate::proofs::Room::step_front), unfolding(crate::specs::Step::step_of))]
    pub fn step(self, event: Event, payload: &[u8], flash: &mut [u8], reply: &mut [u8]) -> Stepped
        ensures { left result flash.new reply.new
            ≡ step_of self event payload.now flash.old reply.old }
    {
        match reply.first_chunk_mut() {
            Some(front) => self.step_with_room(event, payload, flash, front),
            None => self.answers(Answer::Refused(Refusal::NoRoom)),
        }
    }

    // All that an event is answered with stands in the front of the reply buffer.
    #[tactic(auto, unfolding(crate::specs::Step::step_of, octets::specs::Octets::part_of))]
    fn step_with_room(
        self,
        event: Event,
        payload: &[u8],
        flash: &mut [u8],
        reply: &mut Reply,
    ) -> Stepped
        ensures { left result flash.new reply.new
            ≡ step_of self event payload.now flash.old reply.old }
    {
        if flash.len() != self.flash {
            return self.answers(Answer::Refused(Refusal::WrongLength));
        }
        if !self.is_open() {
            return self.answers(Answer::Nothing);
        }
        let open = Open { session: self };
        match event {
            Event::Frame { command, count } => {
                open.frame(command, octets::part(payload, 0, count), flash, reply)
            }
            Event::Elapsed(ms) => open.passes(ms),
        }
    }

    fn answers(self, answer: Answer) -> Stepped
        ensures { result ≡ stepped self answer }
    {
        Stepped {
            session: self,
            answer,
        }
    }
}

impl Open {
    // A frame comes: the rules decide, then flash and reply are written. The idle sum starts anew.
    #[tactic(auto, unfolding(crate::specs::Step::frame_step))]
    fn frame(self, command: u8, payload: &[u8], flash: &mut [u8], reply: &mut Reply) -> Stepped
        ensures { left result flash.new reply.new
            ≡ frame_step self.session command payload.now flash.old reply.old }
    {
        let decision = self.decide(command, payload, flash);
        store(decision.put, payload, flash);
        Stepped {
            session: Session {
                idle: SUM_ANEW,
                phase: decision.phase,
                ..self.session
            },
            answer: send(decision.say, reply),
        }
    }

    // Milliseconds pass. A sum over 7,000 closes the session.
    #[tactic(auto, unfolding(crate::specs::Step::time_step))]
    fn passes(self, ms: u32) -> Stepped
        ensures { result ≡ time_step self.session ms }
    {
        let session = self.session;
        if ms <= LONGEST_IDLE - session.idle {
            return Session {
                idle: session.idle + ms,
                ..session
            }
            .answers(Answer::Nothing);
        }
        Session {
            idle: CLOSING_IDLE,
            phase: Phase::Closed,
            ..session
        }
        .answers(Answer::Nothing)
    }
}

// Whether a flash of this length can be opened.
#[tactic(auto, unfolding(module_model::specs::Phases::openable))]
fn can_open(extent: usize) -> bool
    ensures { result ≡ openable extent }
{
    1 <= extent && extent <= LARGEST_FLASH
}

// Whether an open session has such a flash and such an idle sum.
#[tactic(auto, unfolding(module_model::specs::Phases::alive))]
fn is_alive(flash: usize, idle: u32) -> bool
    ensures { result ≡ alive flash idle }
{
    can_open(flash) && idle <= LONGEST_IDLE
}

// Whether what an open phase has gone through could arise over a flash.
fn is_held(phase: Phase, flash: usize) -> bool
    ensures { result ≡ held phase flash }
{
    match phase {
        Phase::Closed => false,
        Phase::Ready => true,
        Phase::Begun(transfer) => is_fit(transfer, flash),
        Phase::Loading {
            pieces,
            number,
            written,
        } => is_loading(pieces, flash, number, written),
        Phase::Done { pieces, written } => is_done(pieces, flash, written),
    }
}

fn is_fit(transfer: Transfer, flash: usize) -> bool
    ensures { result ≡ fits transfer flash }
{
    kinds::fits_flash(transfer.kind, transfer.extent, flash)
}

// Whether packet 1 could have set this size.
#[tactic(auto, unfolding(module_model::specs::Phases::cuts))]
fn is_cut(pieces: Pieces) -> bool
    ensures { result ≡ cuts pieces }
{
    1 <= pieces.size
        && pieces.size <= LARGEST_PACKET
        && pieces.size <= pieces.transfer.extent
        && pieces::count(pieces.transfer.extent, pieces.size) <= LARGEST_TOTAL
}

#[tactic(auto, using(module_model::proofs::PhasesLaws::cuts_facts), unfolding(module_model::specs::Phases::loading_arises))]
fn is_loading(pieces: Pieces, flash: usize, number: usize, written: usize) -> bool
    ensures { result ≡ loading_arises pieces flash number written }
{
    if !is_cut(pieces) {
        return false;
    }
    if pieces::count(pieces.transfer.extent, pieces.size) <= number {
        return false;
    }
    // A number below the count of a cut keeps the product small. Tried as one condition with the tests above: its bound did not close.
    is_fit(pieces.transfer, flash) && 1 <= number && written == number * pieces.size
}

#[tactic(auto, unfolding(module_model::specs::Phases::done_arises))]
fn is_done(pieces: Pieces, flash: usize, written: usize) -> bool
    ensures { result ≡ done_arises pieces flash written }
{
    is_fit(pieces.transfer, flash) && is_cut(pieces) && written == pieces.transfer.extent
}

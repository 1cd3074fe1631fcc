// Sessions kept in bytes: whether bytes keep one, which, and another kept in its place.
ghost use Rattle.std.specs.Prelude.{◌≡◌};
ghost use Rattle.flat.specs.Words.{recorded, spelled_all};
ghost use Rattle.host.specs.Step.{ended_of};
ghost use Rattle.kept_host.specs.Kept.{words_of, stands, session_in, kept_of};

use crate::fields::fields_in;
use crate::record;
use crate::words::words_of;
use host::{Phase, Session};

// The record of a session, at the front of the bytes. This and record_of are one line each over flat's generic calls, as kept_module's are:
// PROMISES names all four.
pub fn write(session: Session, state: &mut [u8])
    ensures { state.new ≡ recorded (words_of session) state.old }
{
    flat::store(&words_of(session), state);
}

// The record of a session alone.
pub fn record_of(session: Session) -> [u8; record::RECORD_BYTES]
    ensures { result ≡ spelled_all (words_of session) }
{
    flat::spelled(&words_of(session))
}

// Whether the bytes begin with the record of a session that could arise; any others are taken as an ended one.
#[tactic(auto, using(crate::proofs::KeptLaws::compared, octets::proofs::Words::same_pointwise), unfolding(crate::specs::Kept::stands))]
pub fn stands(state: &[u8]) -> bool
    ensures { result ≡ stands state.now }
{
    let session = fields_in(state);
    let front = octets::part(state, 0, record::RECORD_BYTES);
    record_of(session).as_slice() == front && session.can_arise()
}

// The session that the bytes keep; any others keep an ended one over the image length that is in them.
#[tactic(auto, unfolding(crate::specs::Kept::session_in))]
pub fn session_in(state: &[u8]) -> Session
    ensures { result ≡ session_in state.now }
{
    if stands(state) {
        return fields_in(state);
    }
    over(flat::eight_at(state, record::IMAGE_PLACE))
}

// Another session kept in the bytes, where they keep one.
#[tactic(auto, unfolding(crate::specs::Kept::kept_of))]
pub(crate) fn keep(session: Session, state: &mut [u8])
    ensures { state.new ≡ kept_of state.old session }
{
    if stands(state) {
        write(session, state);
    }
}

// As host's private call: a struct of two fields, and no public call more.
pub(crate) fn over(image: usize) -> Session
    ensures { result ≡ ended_of image }
{
    Session {
        image,
        phase: Phase::Ended,
    }
}

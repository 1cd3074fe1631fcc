// A session as the words of its record, and whether some bytes are that record.
ghost use Rattle.std.specs.Prelude.{◌≡◌, cond};
ghost use Rattle.kinds.specs.Kinds.{number_of};
ghost use Rattle.flat.specs.Words.{recorded, spelled_all, stands_for};
ghost use Rattle.kept_module.specs.Kept.{row_of, pieces_row, words_of};

use crate::record;
use kinds::Kind;
use module::{Phase, Pieces, Session};

// The words of a session.
#[tactic(auto, unfolding(crate::specs::Kept::words_of))]
pub(crate) fn words_of(session: Session) -> [u32; record::RECORD_WORDS]
    ensures { result ≡ words_of session }
{
    match session.phase {
        Phase::Closed => row(session, record::CLOSED_PHASE, 0, 0, 0, 0, 0),
        Phase::Ready => row(session, record::READY_PHASE, 0, 0, 0, 0, 0),
        Phase::Begun(transfer) => row(
            session,
            record::BEGUN_PHASE,
            type_of(transfer.kind),
            transfer.extent,
            0,
            0,
            0,
        ),
        Phase::Loading {
            pieces,
            number,
            written,
        } => pieces_row(session, record::LOADING_PHASE, pieces, number, written),
        Phase::Done { pieces, written } => {
            pieces_row(session, record::DONE_PHASE, pieces, 0, written)
        }
    }
}

// The words of a session whose pieces are set.
fn pieces_row(
    session: Session,
    phase: u32,
    pieces: Pieces,
    number: usize,
    written: usize,
) -> [u32; record::RECORD_WORDS]
    ensures { result ≡ pieces_row session.flash session.idle phase pieces number written }
{
    row(
        session,
        phase,
        type_of(pieces.transfer.kind),
        pieces.transfer.extent,
        pieces.size,
        number,
        written,
    )
}

// The words one by one. They come as numbers and in no struct, since `row_of` has them so, by the same names; a struct would only spell
// them a third time.
fn row(
    session: Session,
    phase: u32,
    kind: u32,
    extent: usize,
    size: usize,
    number: usize,
    written: usize,
) -> [u32; record::RECORD_WORDS]
    ensures { result ≡ row_of session.flash session.idle phase kind extent size number written }
{
    [
        flat::low(session.flash),
        flat::high(session.flash),
        session.idle,
        phase,
        kind,
        flat::low(extent),
        flat::low(size),
        flat::low(number),
        flat::low(written),
    ]
}

// The type number of a kind.
fn type_of(kind: Kind) -> u32
    ensures { result ≡ number_of kind }
{
    u32::from(kinds::number_of(kind))
}

// The record of a session, at the front of the bytes. This and record_of are one line each over flat's generic calls, as kept_host's are:
// PROMISES names all four.
pub fn write(session: Session, state: &mut [u8])
    ensures { state.new ≡ recorded (words_of session) state.old }
{
    flat::store(&words_of(session), state);
}

// The record of a session alone.
pub fn record_of(session: Session) -> [u8; record::RECORD_BYTES]
    ensures { result ≡ spelled_all (words_of session) }
{
    flat::spelled(&words_of(session))
}

// Whether the front of the bytes is the record of a session: one comparison, as in kept_host, so a generic one would be no plainer.
#[tactic(auto, using(octets::proofs::Words::same_pointwise), unfolding(flat::specs::Words::stands_for))]
pub(crate) fn stands(session: Session, state: &[u8]) -> bool
    ensures { result ≡ stands_for (words_of session) state.now }
{
    record_of(session).as_slice() == octets::part(state, 0, record::RECORD_BYTES)
}

// Writes a session over the record in the bytes, if there was one; whether there was comes in, as a step has compared the record already.
pub(crate) fn keep(genuine: bool, session: Session, state: &mut [u8])
    ensures { state.new ≡ cond genuine (recorded (words_of session) state.old) state.old }
{
    if genuine {
        write(session, state);
    }
}

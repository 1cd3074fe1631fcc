// A session read from the bytes that a caller has kept.
ghost use Rattle.std.specs.Prelude.{◌≡◌};
ghost use Rattle.octets.specs.Octets.{number_at};
ghost use Rattle.kept_module.specs.Kept.{kind_in, transfer_in, pieces_in, phase_in, fields_in, session_by};

use crate::record;
use kinds::Kind;
use module::{Phase, Pieces, Session, Transfer};

// The session whose numbers stand in the bytes, as far as they make sense.
pub(crate) fn fields_in(state: &[u8]) -> Session
    ensures { result ≡ fields_in state.now }
{
    Session {
        flash: flat::eight_at(state, record::FLASH_PLACE),
        idle: octets::four_at(state, record::IDLE_PLACE),
        phase: phase_in(state),
    }
}

#[tactic(auto, unfolding(crate::specs::Kept::phase_in))]
fn phase_in(state: &[u8]) -> Phase
    ensures { result ≡ phase_in state.now }
{
    match octets::four_at(state, record::PHASE_PLACE) {
        record::READY_PHASE => Phase::Ready,
        record::BEGUN_PHASE => Phase::Begun(transfer_in(state)),
        record::LOADING_PHASE => Phase::Loading {
            pieces: pieces_in(state),
            number: word_at(state, record::NUMBER_PLACE),
            written: word_at(state, record::WRITTEN_PLACE),
        },
        record::DONE_PHASE => Phase::Done {
            pieces: pieces_in(state),
            written: word_at(state, record::WRITTEN_PLACE),
        },
        _ => Phase::Closed,
    }
}

fn pieces_in(state: &[u8]) -> Pieces
    ensures { result ≡ pieces_in state.now }
{
    Pieces {
        transfer: transfer_in(state),
        size: word_at(state, record::SIZE_PLACE),
    }
}

fn transfer_in(state: &[u8]) -> Transfer
    ensures { result ≡ transfer_in state.now }
{
    Transfer {
        kind: kind_in(state),
        extent: word_at(state, record::LENGTH_PLACE),
    }
}

// The kind of the type; a type that is none reads as the first, which the record then does not match.
fn kind_in(state: &[u8]) -> Kind
    ensures { result ≡ kind_in state.now }
{
    kinds::kind_of(octets::two_at(state, record::TYPE_PLACE)).unwrap_or(Kind::Navigation)
}

fn word_at(state: &[u8], at: usize) -> usize
    ensures { result ≡ number_at 4 state.now at }
{
    octets::four_at(state, at) as usize
}

// The session read, where it stands; else a closed one over its flash length. The flag comes in beside it: a step needs the session either way
// and the flag alone once more, to write, so an Option would be no plainer.
pub(crate) fn session_of(genuine: bool, fields: Session) -> Session
    ensures { result ≡ session_by genuine fields }
{
    if genuine {
        return fields;
    }
    Session {
        flash: fields.flash,
        idle: 0,
        phase: Phase::Closed,
    }
}

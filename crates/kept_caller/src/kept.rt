// A caller read from bytes, and put there again.
ghost use Rattle.std.specs.Prelude.{◌≡◌};
ghost use Rattle.flat.specs.Words.{spelled_all};
ghost use Rattle.kept_caller.specs.Kept.{counts_of, caller_kept, caller_in};

use crate::record;
use host_end::HostEnd;
use posts::Caller;

// The caller that some bytes keep.
#[tactic(auto, unfolding(crate::specs::Kept::caller_in))]
pub(crate) fn caller_in(state: &[u8]) -> Caller
    ensures { result ≡ caller_in state.now }
{
    Caller {
        end: HostEnd {
            reader: kept_reader::reader_in(state),
            seen: octets::four_at(state, record::SEEN_PLACE) as usize,
            session: kept_host::session_in(octets::behind(state, record::SESSION_PLACE)),
        },
        resent: flat::eight_at(state, record::RESENT_PLACE),
        dropped: flat::eight_at(state, record::DROPPED_PLACE),
    }
}

// Puts a caller into some bytes.
#[tactic(auto, unfolding(crate::specs::Kept::caller_kept))]
pub(crate) fn keep(caller: Caller, state: &mut [u8])
    ensures { state.new ≡ caller_kept caller state.old }
{
    kept_reader::keep(caller.end.reader, state);
    octets::copy(&counts_of(caller), state, record::SEEN_PLACE);
    let session = kept_host::record_of(caller.end.session);
    octets::copy(&session, state, record::SESSION_PLACE);
}

// What is counted, as bytes.
fn counts_of(caller: Caller) -> [u8; record::COUNTS_BYTES]
    ensures { result ≡ spelled_all (counts_of caller) }
{
    flat::spelled(&[
        flat::low(caller.end.seen),
        flat::low(caller.resent),
        flat::high(caller.resent),
        flat::low(caller.dropped),
        flat::high(caller.dropped),
    ])
}

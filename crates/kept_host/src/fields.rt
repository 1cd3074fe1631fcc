// A session read from bytes, each number at its place.
ghost use Rattle.std.specs.Prelude.{◌≡◌};
ghost use Rattle.kept_host.specs.Kept.{rate_in, start_in, same_in, stage_of, stage_in, plan_in, kind_phase, phase_in, fields_in};

use crate::record;
use host::{Phase, Session, Wait};
use kinds::Kind;
use stages::{Plan, Rate, Same, Stage, Start};

// The session that the numbers say.
#[tactic(auto, unfolding(crate::specs::Kept::fields_in))]
pub(crate) fn fields_in(state: &[u8]) -> Session
    ensures { result ≡ fields_in state.now }
{
    let kind = kinds::kind_of(octets::two_at(state, record::TYPE_PLACE));
    Session {
        image: flat::eight_at(state, record::IMAGE_PLACE),
        phase: phase_in(kind, state),
    }
}

// A type that is not known is read as a session that has ended.
fn phase_in(known: Option<Kind>, state: &[u8]) -> Phase
    ensures { result ≡ phase_in known state.now }
{
    known.map_or(Phase::Ended, |kind| kind_phase(kind, state))
}

// With a known type: ended at a rate, or waiting.
#[tactic(auto, using(crate::proofs::KeptLaws::phase_ended, crate::proofs::KeptLaws::phase_waits))]
fn kind_phase(kind: Kind, state: &[u8]) -> Phase
    ensures { result ≡ kind_phase kind state.now }
{
    if octets::byte_at(state, record::STAGE_PLACE) == record::ENDED_STAGE {
        return Phase::EndedAt {
            kind,
            rate: rate_in(octets::byte_at(state, record::RATE_PLACE)),
        };
    }
    Phase::Waiting(Wait {
        plan: plan_in(kind, state),
        stage: stage_in(state),
        waited: octets::four_at(state, record::WAITED_PLACE),
        repeats: octets::four_at(state, record::REPEATS_PLACE),
    })
}

#[tactic(auto, unfolding(crate::specs::Kept::plan_in))]
fn plan_in(kind: Kind, state: &[u8]) -> Plan
    ensures { result ≡ plan_in kind state.now }
{
    Plan {
        kind,
        first: rate_in(octets::byte_at(state, record::FIRST_PLACE)),
        wish: flat::eight_at(state, record::WISH_PLACE),
        start: start_in(octets::byte_at(state, record::START_PLACE)),
        same: same_in(octets::byte_at(state, record::SAME_PLACE)),
    }
}

#[tactic(auto, unfolding(crate::specs::Kept::stage_in))]
fn stage_in(state: &[u8]) -> Stage
    ensures { result ≡ stage_in state.now }
{
    stage_of(
        octets::byte_at(state, record::STAGE_PLACE),
        rate_in(octets::byte_at(state, record::RATE_PLACE)),
        octets::four_at(state, record::SIZE_PLACE) as usize,
        octets::four_at(state, record::NUMBER_PLACE) as usize,
    )
}

// The stage of a number; any that is none of a stage before the restart is read as the restart.
#[tactic(auto, unfolding(crate::specs::Kept::stage_of))]
fn stage_of(n: u8, rate: Rate, size: usize, number: usize) -> Stage
    ensures { result ≡ stage_of n rate size number }
{
    match n {
        record::TEXT_STAGE => Stage::Text,
        record::ASKING_STAGE => Stage::Asking(rate),
        record::DECLARING_STAGE => Stage::Declaring(rate),
        record::SENDING_STAGE => Stage::Sending { rate, size, number },
        record::NOTICING_STAGE => Stage::Noticing { rate, size },
        _ => Stage::Restarting { rate, size },
    }
}

// The rate of a number; any other than 2 to 5 is read as 9600.
#[tactic(auto, unfolding(crate::specs::Kept::rate_in))]
fn rate_in(n: u8) -> Rate
    ensures { result ≡ rate_in n }
{
    Rate::try_from(n).unwrap_or(Rate::R9600)
}

// The start of a number; any other than 1 is read as at once.
#[tactic(auto, unfolding(crate::specs::Kept::start_in))]
fn start_in(n: u8) -> Start
    ensures { result ≡ start_in n }
{
    Start::try_from(n).unwrap_or(Start::AtOnce)
}

// What the same version does by number; any other than 1 is read as to stop.
#[tactic(auto, unfolding(crate::specs::Kept::same_in))]
fn same_in(n: u8) -> Same
    ensures { result ≡ same_in n }
{
    Same::try_from(n).unwrap_or(Same::Stop)
}

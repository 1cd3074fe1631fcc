// The words of a session.
ghost use Rattle.std.specs.Prelude.{◌≡◌};
ghost use Rattle.kept_host.specs.Kept.{start_number, same_number, stage_at, stage_words, wait_words, ended_words, words_of};

use crate::record;
use host::{Phase, Session, Wait};
use stages::{Rate, Same, Stage, Start, rate_number};

// What a stage puts into a record.
#[derive(Clone, Copy)]
pub(crate) struct Staged {
    pub(crate) stage: u8,
    pub(crate) rate: u32,
    pub(crate) size: u32,
    pub(crate) number: u32,
}

#[tactic(auto, unfolding(crate::specs::Kept::words_of))]
pub(crate) fn words_of(session: Session) -> [u32; record::RECORD_WORDS]
    ensures { result ≡ words_of session }
{
    match session.phase {
        Phase::Ended => ended_words(session.image, 0, 0),
        Phase::EndedAt { kind, rate } => ended_words(
            session.image,
            u32::from(kinds::number_of(kind)),
            u32::from(rate_number(rate)),
        ),
        Phase::Waiting(wait) => wait_words(session.image, stage_words(wait.stage), wait),
    }
}

// The words of an ended session, with the type and the rate that it keeps.
fn ended_words(image: usize, number: u32, rate: u32) -> [u32; record::RECORD_WORDS]
    ensures { result ≡ ended_words image number rate }
{
    [
        flat::low(image),
        flat::high(image),
        0,
        0,
        u32::from(record::ENDED_STAGE),
        number,
        0,
        rate,
        0,
        0,
        0,
        0,
        0,
        0,
    ]
}

fn wait_words(image: usize, staged: Staged, wait: Wait) -> [u32; record::RECORD_WORDS]
    ensures { result ≡ wait_words image staged wait }
{
    let plan = wait.plan;
    [
        flat::low(image),
        flat::high(image),
        flat::low(plan.wish),
        flat::high(plan.wish),
        u32::from(staged.stage),
        u32::from(kinds::number_of(plan.kind)),
        u32::from(rate_number(plan.first)),
        staged.rate,
        start_number(plan.start),
        same_number(plan.same),
        staged.size,
        staged.number,
        wait.waited,
        wait.repeats,
    ]
}

// The words of a stage; what it does not have is 0.
pub(crate) fn stage_words(stage: Stage) -> Staged
    ensures { result ≡ stage_words stage }
{
    match stage {
        Stage::Text => Staged {
            stage: record::TEXT_STAGE,
            rate: 0,
            size: 0,
            number: 0,
        },
        Stage::Asking(rate) => stage_at(record::ASKING_STAGE, rate, 0, 0),
        Stage::Declaring(rate) => stage_at(record::DECLARING_STAGE, rate, 0, 0),
        Stage::Sending { rate, size, number } => stage_at(
            record::SENDING_STAGE,
            rate,
            size,
            number,
        ),
        Stage::Noticing { rate, size } => stage_at(record::NOTICING_STAGE, rate, size, 0),
        Stage::Restarting { rate, size } => stage_at(record::RESTARTING_STAGE, rate, size, 0),
    }
}

fn stage_at(stage: u8, rate: Rate, size: usize, number: usize) -> Staged
    ensures { result ≡ stage_at stage rate size number }
{
    Staged {
        stage,
        rate: u32::from(rate_number(rate)),
        size: flat::low(size),
        number: flat::low(number),
    }
}

fn start_number(start: Start) -> u32
    ensures { result ≡ start_number start }
{
    u32::from(u8::from(start))
}

fn same_number(same: Same) -> u32
    ensures { result ≡ same_number same }
{
    u32::from(u8::from(same))
}

// How long and how often a message is awaited, and which numbers of a waiting session could arise.
ghost use Rattle.std.specs.Prelude.{◌≡◌};
ghost use Rattle.host_model.specs.Waits.{limit_of, wait, first_stage, loadable, wait_fits, phase_arises};

use host_model::{Phase, Plan, Rate, Stage, Start, Wait};
use kinds::Kind;

// Milliseconds for an answer, and for the notice.
const ANSWER_LIMIT: u32 = 1000;

const NOTICE_LIMIT: u32 = 5000;

// How often one message is resent.
pub(crate) const MOST_REPEATS: u32 = 3;

// Whether a session over an image of this length could arise in this phase.
pub fn phase_arises(image: usize, phase: Phase) -> bool
    ensures { result ≡ phase_arises image phase }
{
    match phase {
        Phase::Ended => true,
        Phase::EndedAt { kind, .. } => loadable(kind, image),
        Phase::Waiting(wait) => wait_fits(image, wait),
    }
}

// Whether a waiting one could.
#[tactic(auto, unfolding(host_model::specs::Waits::wait_fits))]
fn wait_fits(image: usize, wait: Wait) -> bool
    ensures { result ≡ wait_fits image wait }
{
    loadable(wait.plan.kind, image)
        && wait.waited < limit(wait.stage)
        && wait.repeats <= MOST_REPEATS
        && stages::stage_fits(wait.plan, image, wait.stage)
}

// What can be loaded.
pub(crate) fn loadable(kind: Kind, image: usize) -> bool
    ensures { result ≡ loadable kind image }
{
    kinds::fits_file(kind, image)
}

// How long an answer is awaited.
pub(crate) fn limit(stage: Stage) -> u32
    ensures { result ≡ limit_of stage }
{
    match stage {
        Stage::Noticing { .. } => NOTICE_LIMIT,
        Stage::Text
        | Stage::Asking(_)
        | Stage::Declaring(_)
        | Stage::Sending { .. }
        | Stage::Restarting { .. } => ANSWER_LIMIT,
    }
}

// The start text, or the first rate.
pub(crate) fn first_stage(start: Start, first: Rate) -> Stage
    ensures { result ≡ first_stage start first }
{
    match start {
        Start::WithText => Stage::Text,
        Start::AtOnce => Stage::Asking(first),
    }
}

pub(crate) fn waiting(plan: Plan, stage: Stage, waited: u32, repeats: u32) -> Wait
    ensures { result ≡ wait plan stage waited repeats }
{
    Wait {
        plan,
        stage,
        waited,
        repeats,
    }
}

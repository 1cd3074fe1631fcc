// What follows an event or an opening, before anything is sent.
ghost use Rattle.std.specs.Prelude.{◌≡◌};
ghost use Rattle.host_model.specs.Nexts.{after_repeats, resend_next, move_next, time_next, event_next, plan_next};

use crate::waits::{MOST_REPEATS, first_stage, limit, loadable, waiting};
use host_model::{Answer, Event, Move, Next, Plan, Wait};
use refusals::Refusal;

// What follows an event, over an image of this length. Payload and line are the first count bytes of the slice, or all of it where
// it is shorter.
#[tactic(auto, unfolding(octets::specs::Octets::part_of))]
pub fn event_next(wait: Wait, image: usize, event: Event, bytes: &[u8]) -> Next
    ensures { result ≡ event_next wait image event bytes.now }
{
    match event {
        Event::Frame { command, count } => {
            let part = octets::part(bytes, 0, count);
            move_next(
                wait,
                stages::frame_move(wait.plan, image, wait.stage, command, part),
            )
        }
        Event::Line { count } => {
            let part = octets::part(bytes, 0, count);
            move_next(wait, stages::line_move(wait.plan, wait.stage, part))
        }
        Event::Elapsed(ms) => time_next(wait, ms),
    }
}

// What a move leads to.
fn move_next(wait: Wait, go: Move) -> Next
    ensures { result ≡ move_next wait go }
{
    match go {
        Move::Stay => Next::Stays,
        Move::Enter(next) => Next::Sends(waiting(wait.plan, next, 0, 0)),
        Move::Await(next) => Next::Waits(waiting(wait.plan, next, 0, wait.repeats)),
        Move::Resend => resend_next(wait),
        Move::Refuse { refusal, passed } => Next::Fails { refusal, passed },
        Move::TooMany => Next::Ends(Answer::Refused(Refusal::WrongPieces)),
        Move::Finish => Next::Ends(Answer::Done),
    }
}

// Milliseconds are counted; once they reach the limit, the message is due again.
#[tactic(auto, using(host_model::proofs::NextsLaws::time_short, host_model::proofs::NextsLaws::time_up))]
fn time_next(wait: Wait, ms: u32) -> Next
    ensures { result ≡ time_next wait ms }
{
    let limit = limit(wait.stage);
    if limit <= wait.waited || limit - wait.waited <= ms {
        return resend_next(wait);
    }
    Next::Waits(Wait {
        waited: wait.waited + ms,
        ..wait
    })
}

// The message of the stage again, at most 3 times.
#[tactic(auto, using(host_model::proofs::NextsLaws::resend_more, host_model::proofs::NextsLaws::resend_enough))]
fn resend_next(wait: Wait) -> Next
    ensures { result ≡ resend_next wait }
{
    if MOST_REPEATS <= wait.repeats {
        return after_repeats(wait);
    }
    Next::Sends(Wait {
        waited: 0,
        repeats: wait.repeats + 1,
        ..wait
    })
}

// What follows the last repeat.
fn after_repeats(wait: Wait) -> Next
    ensures { result ≡ after_repeats wait }
{
    Next::Ends(Answer::Refused(Refusal::NoAnswer))
}

// An opening with a known type.
#[tactic(auto, using(host_model::proofs::NextsLaws::plan_begins, host_model::proofs::NextsLaws::plan_refused))]
pub fn plan_next(plan: Plan, image: usize) -> Next
    ensures { result ≡ plan_next plan image }
{
    if !loadable(plan.kind, image) {
        return Next::Ends(Answer::Refused(Refusal::WrongImageLength));
    }
    Next::Sends(waiting(plan, first_stage(plan.start, plan.first), 0, 0))
}

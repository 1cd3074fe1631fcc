// The module's step over a session lent to be changed where it stands.
#![tactic(auto)]

ghost use Rattle.std.specs.Prelude.{◌≡◌};
ghost use Rattle.module.specs.Session.{stepped};
ghost use Rattle.module.specs.Step.{left, step_of};

use module::{Answer, Event, Session, Stepped};

// Takes one event. The session moves on where it stands.
pub fn step(
    session: &mut Session,
    event: Event,
    payload: &[u8],
    flash: &mut [u8],
    reply: &mut [u8],
) -> Answer
    ensures { left (stepped session.new result) flash.new reply.new
        ≡ step_of session.old event payload.now flash.old reply.old }
{
    let next = session.step(event, payload, flash, reply);
    *session = next.session;
    next.answer
}

// The same by value, through a session that is lent for the call. The contract is that of `Session::step`: PROMISES (M6) shows by both that
// the two ways of lending say the same.
pub fn lend(
    mut session: Session,
    event: Event,
    payload: &[u8],
    flash: &mut [u8],
    reply: &mut [u8],
) -> Stepped
    ensures { left result flash.new reply.new
        ≡ step_of session event payload.now flash.old reply.old }
{
    let answer = step(&mut session, event, payload, flash, reply);
    Stepped { session, answer }
}

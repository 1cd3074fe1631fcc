// The session: opened with what to load, stepped by value, handed back beside the answer.
ghost use Rattle.std.specs.Prelude.{◌≡◌};
ghost use Rattle.host_model.specs.SmallNexts.{SmallNext};
ghost use Rattle.host_model.specs.Small.{Small};
ghost use Rattle.host_model.specs.Views.{progress_of, ended_at_rate};
ghost use Rattle.host_model.specs.declared.nexts.Next.TheVariants.{Sends, Fails};
ghost use Rattle.host_model.specs.declared.waits.Phase.TheVariants.{EndedAt, Waiting};
ghost use Rattle.host.specs.Session.{session, stepped, arises, taken_phase, session_progress, session_rate, session_repeats};
ghost use Rattle.host.specs.Step.{left, ended_of, failed_of, performs, step_of, opening_of};

use crate::messages::{send, send_restart};
use host_model::{Answer, Event, Next, Phase, Plan, Progress, Rate, Same, Start, Wait};
use kinds::Kind;
use refusals::Refusal;

// The length of the image at the opening, and how far the session is.
#[derive(Clone, Copy)]
pub struct Session {
    pub image: usize,
    pub phase: Phase,
}

// The session handed back, and its answer. A struct of its own and no generic pair: README and the statements name the parts, and
// `.session` says more than `.0`.
#[derive(Clone, Copy)]
pub struct Stepped {
    pub session: Session,
    pub answer: Answer,
}

impl Session {
    // Opens a session: 6, 8, then 2; else the first text or frame stands at the front of the output. Each wish comes by
    // itself, as C (zrn_host_open) gives it; from here on they are one `Plan`.
    #[tactic(auto, using(host_model::proofs::NextsLaws::plan_small, host_model::proofs::NextsLaws::small_next_same), unfolding(crate::specs::Step::opening_of))]
    pub fn opening(
        number: u16,
        image: &[u8],
        first: Rate,
        wish: usize,
        start: Start,
        same: Same,
        out: &mut [u8],
    ) -> Stepped
        ensures { left result out.new
            ≡ opening_of number (record { first = first; wish = wish; start = start; same = same }) image.now out.old }
    {
        match kinds::kind_of(number) {
            Some(kind) => {
                let plan = Plan {
                    kind,
                    first,
                    wish,
                    start,
                    same,
                };
                let next = waits::plan_next(plan, image.len());
                over(image.len()).performs(next, image, out)
            }
            None => over(image.len()).answers(Answer::Refused(Refusal::WrongType)),
        }
    }

    // Takes one event; the image is lent again. Payload and line are the first count bytes of the slice, or all of it where it is
    // shorter.
    pub fn step(self, event: Event, bytes: &[u8], image: &[u8], out: &mut [u8]) -> Stepped
        ensures { left result out.new
            ≡ step_of self event bytes.now image.now out.old }
    {
        if image.len() != self.image {
            return self.answers(Answer::Refused(Refusal::WrongLength));
        }
        match self.taken() {
            Phase::Ended | Phase::EndedAt { .. } => self.answers(Answer::Nothing),
            Phase::Waiting(wait) => {
                let next = waits::event_next(wait, image.len(), event, bytes);
                self.performs(next, image, out)
            }
        }
    }

    // Packets accepted and in all.
    pub fn progress(self) -> Progress
        ensures { result ≡ session_progress self }
    {
        match self.taken() {
            Phase::Ended | Phase::EndedAt { .. } => none(),
            Phase::Waiting(wait) => waits::stage_progress(wait.stage, self.image),
        }
    }

    // The rate that the line should have now.
    pub fn line_rate(self) -> Option<Rate>
        ensures { result ≡ session_rate self }
    {
        match self.taken() {
            Phase::Ended => None,
            Phase::EndedAt { rate, .. } => Some(rate),
            Phase::Waiting(wait) => waits::message_rate(wait.stage, wait.repeats),
        }
    }

    // How often the message under way was resent.
    pub fn resent(self) -> u32
        ensures { result ≡ session_repeats self }
    {
        match self.taken() {
            Phase::Ended | Phase::EndedAt { .. } => 0,
            Phase::Waiting(wait) => wait.repeats,
        }
    }

    // Whether the numbers of the session could arise; one whose numbers could not is taken as ended.
    #[tactic(auto, unfolding(crate::specs::Session::arises))]
    pub fn can_arise(self) -> bool
        ensures { result ≡ arises self }
    {
        waits::phase_arises(self.image, self.phase)
    }

    // How far the session is taken to be.
    #[tactic(auto, using(crate::specs::StepLaws::taken_arisen, crate::specs::StepLaws::taken_never))]
    fn taken(self) -> Phase
        ensures { result ≡ taken_phase self }
    {
        if !self.can_arise() {
            return Phase::Ended;
        }
        self.phase
    }

    // What follows is done.
    fn performs(self, next: Next, image: &[u8], out: &mut [u8]) -> Stepped
        requires { SmallNext next }
        ensures { left result out.new ≡ performs self next image.now out.old }
    {
        match next {
            Next::Stays => self.answers(Answer::Nothing),
            Next::Waits(wait) => waiting(image.len(), wait).answers(Answer::Nothing),
            Next::Sends(wait) => self.sends(wait, image, out),
            Next::Ends(answer) => over(image.len()).answers(answer),
            Next::Fails { refusal, passed } => self.fails(refusal, passed, image, out),
        }
    }

    // The message of a stage is sent; without room for it all stays.
    fn sends(self, wait: Wait, image: &[u8], out: &mut [u8]) -> Stepped
        requires { Small wait.stage }
        ensures { left result out.new ≡ performs self (Sends wait) image.now out.old }
    {
        match send(wait.plan, wait.stage, image, out) {
            Ok(n) => waiting(image.len(), wait).answers(Answer::Sent(n)),
            Err(refusal) => self.answers(Answer::Refused(refusal)),
        }
    }

    // 21 and 22: the restart frame, and the session ends.
    fn fails(self, refusal: Refusal, passed: u8, image: &[u8], out: &mut [u8]) -> Stepped
        ensures { left result out.new ≡ performs self (Fails refusal passed) image.now out.old }
    {
        match send_restart(out) {
            Ok(count) => self.failed(image.len()).answers(Answer::Failed {
                refusal,
                passed,
                count,
            }),
            Err(unsent) => self.answers(Answer::Refused(unsent)),
        }
    }

    // The session as it ends with the restart frame.
    fn failed(self, image: usize) -> Session
        ensures { result ≡ failed_of self image }
    {
        match self.phase {
            Phase::Ended => over(image),
            Phase::EndedAt { kind, rate } => over_at(image, kind, rate),
            Phase::Waiting(wait) => {
                over_with(image, wait.plan.kind, waits::message_rate(wait.stage, 0))
            }
        }
    }

    fn answers(self, answer: Answer) -> Stepped
        ensures { result ≡ stepped self answer }
    {
        Stepped {
            session: self,
            answer,
        }
    }
}

fn none() -> Progress
    ensures { result ≡ progress_of 0 0 }
{
    Progress {
        accepted: 0,
        total: 0,
    }
}

fn waiting(image: usize, wait: Wait) -> Session
    ensures { result ≡ session image (Waiting wait) }
{
    Session {
        image,
        phase: Phase::Waiting(wait),
    }
}

fn over(image: usize) -> Session
    ensures { result ≡ ended_of image }
{
    Session {
        image,
        phase: Phase::Ended,
    }
}

fn over_with(image: usize, kind: Kind, line: Option<Rate>) -> Session
    ensures { result ≡ session image (ended_at_rate kind line) }
{
    match line {
        None => over(image),
        Some(rate) => over_at(image, kind, rate),
    }
}

fn over_at(image: usize, kind: Kind, rate: Rate) -> Session
    ensures { result ≡ session image (EndedAt kind rate) }
{
    Session {
        image,
        phase: Phase::EndedAt { kind, rate },
    }
}

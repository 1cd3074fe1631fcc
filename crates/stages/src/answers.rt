// What an answer of the module does: which answers fit a stage, and where each leads. Nothing is sent here.
ghost use Rattle.std.specs.Prelude.{◌≡◌, length};
ghost use Rattle.host_model.specs.Answers.{by_ack, lower_move, rate_move, size_move, parameters_move, accepted_move, same_move, packet_move, notice_move, fitting, rate_answer, parameters_answer, packet_answer, notice_answer, restart_answer, frame_move, text_move, line_move};

use commands::{LARGEST_PACKET, LARGEST_TOTAL};
use host_model::{Move, Plan, Rate, Same, Stage};
use rates::rate_number;
use refusals::Refusal;

// What a session was opened with, and the length of its image.
#[derive(Clone, Copy)]
struct Load {
    plan: Plan,
    image: usize,
}

// A frame of the module.
#[derive(Clone, Copy)]
struct Reply<'a> {
    command: u8,
    payload: &'a [u8],
}

// A frame at a stage. An answer of another command or payload length counts as none.
pub fn frame_move(plan: Plan, image: usize, stage: Stage, command: u8, payload: &[u8]) -> Move
    ensures { result ≡ frame_move plan image stage command payload.now }
{
    let load = Load { plan, image };
    let reply = Reply { command, payload };
    match stage {
        Stage::Text => Move::Stay,
        Stage::Asking(rate) => reply.to_rate(rate),
        Stage::Declaring(rate) => reply.to_parameters(load, rate),
        Stage::Sending { rate, size, number } => reply.to_packet(load, rate, size, number),
        Stage::Noticing { rate, size } => reply.as_notice(rate, size),
        Stage::Restarting { .. } => reply.to_restart(),
    }
}

impl Reply<'_> {
    #[tactic(auto, unfolding(host_model::specs::Answers::fitting))]
    fn fits(self, command: u8, count: usize) -> bool
        ensures { result ≡ fitting command count self.entry.command (length self.entry.payload.now) }
    {
        self.command == command && self.payload.len() == count
    }

    // An answer to 0x01.
    fn to_rate(self, rate: Rate) -> Move
        ensures { result ≡ rate_answer rate self.entry.command self.entry.payload.now }
    {
        if !self.fits(commands::RATE, 2) {
            return Move::Stay;
        }
        rate_move(
            rate,
            octets::byte_at(self.payload, 0),
            octets::byte_at(self.payload, 1),
        )
    }

    // An answer to 0x02.
    fn to_parameters(self, load: Load, rate: Rate) -> Move
        ensures { result ≡ parameters_answer load.plan load.image rate self.entry.command self.entry.payload.now }
    {
        if !self.fits(commands::PARAMETERS, 3) {
            return Move::Stay;
        }
        let most = usize::from(octets::two_at(self.payload, 0));
        load.parameters_move(rate, most, octets::byte_at(self.payload, 2))
    }

    // An answer to 0x05.
    fn to_packet(self, load: Load, rate: Rate, size: usize, number: usize) -> Move
        ensures { result ≡ packet_answer load.plan load.image rate size number self.entry.command self.entry.payload.now }
    {
        if !self.fits(commands::PACKET, 3) {
            return Move::Stay;
        }
        let given = usize::from(octets::two_at(self.payload, 0));
        load.packet_move(rate, size, number, given, octets::byte_at(self.payload, 2))
    }

    // The notice.
    fn as_notice(self, rate: Rate, size: usize) -> Move
        ensures { result ≡ notice_answer rate size self.entry.command self.entry.payload.now }
    {
        if !self.fits(commands::NOTICE, 1) {
            return Move::Stay;
        }
        notice_move(rate, size, octets::byte_at(self.payload, 0))
    }

    // An answer to 0x06.
    fn to_restart(self) -> Move
        ensures { result ≡ restart_answer self.entry.command self.entry.payload.now }
    {
        if !self.fits(commands::RESTART, 1) {
            return Move::Stay;
        }
        by_ack(
            octets::byte_at(self.payload, 0),
            Move::Finish,
            Move::Stay,
            Move::Stay,
        )
    }
}

impl Load {
    // MaxPk and ACK.
    #[tactic(auto, using(host_model::proofs::AnswersLaws::parameters_ack))]
    fn parameters_move(self, rate: Rate, most: usize, ack: u8) -> Move
        ensures { result ≡ parameters_move self.plan self.image rate most ack }
    {
        let size = most.min(LARGEST_PACKET).min(self.plan.wish);
        by_ack(
            ack,
            self.size_move(rate, size),
            refuse(commands::WRONG_FIRST),
            refuse(commands::WRONG_SECOND),
        )
    }

    // Packets begin, unless the piece size is 0 or there are more than 65,535 pieces.
    #[tactic(auto, using(host_model::proofs::AnswersLaws::size_begins, host_model::proofs::AnswersLaws::size_stops))]
    fn size_move(self, rate: Rate, size: usize) -> Move
        ensures { result ≡ size_move rate self.image size }
    {
        if size < 1 {
            return Move::TooMany;
        }
        if LARGEST_TOTAL < pieces::count(self.image, size) {
            return Move::TooMany;
        }
        Move::Enter(Stage::Sending {
            rate,
            size,
            number: 1,
        })
    }

    // PkNo and ACK; PkNo 0 fits with ACK 01 or 10.
    #[tactic(auto, using(host_model::proofs::AnswersLaws::packet_this, host_model::proofs::AnswersLaws::packet_none, host_model::proofs::AnswersLaws::packet_other))]
    fn packet_move(self, rate: Rate, size: usize, number: usize, given: usize, ack: u8) -> Move
        ensures { result ≡ packet_move self.plan self.image rate size number given ack }
    {
        if given == number {
            let accepted = self.accepted_move(rate, size, number);
            return by_ack(
                ack,
                accepted,
                refuse(commands::WRONG_FIRST),
                same_move(self.plan.same, accepted),
            );
        }
        if given == 0 {
            return by_ack(ack, Move::Stay, refuse(commands::WRONG_FIRST), Move::Stay);
        }
        Move::Stay
    }

    // After an accepted packet the next, after the last the notice.
    #[tactic(auto, using(host_model::proofs::AnswersLaws::accepted_last, host_model::proofs::AnswersLaws::accepted_before))]
    fn accepted_move(self, rate: Rate, size: usize, number: usize) -> Move
        ensures { result ≡ accepted_move self.image rate size number }
    {
        if number < pieces::count(self.image, size) {
            return Move::Enter(Stage::Sending {
                rate,
                size,
                number: number + 1,
            });
        }
        Move::Await(Stage::Noticing { rate, size })
    }
}

// A line of text at a stage.
pub fn line_move(plan: Plan, stage: Stage, line: &[u8]) -> Move
    ensures { result ≡ line_move plan stage line.now }
{
    match stage {
        Stage::Text => text_move(plan.first, line),
        Stage::Asking(_)
        | Stage::Declaring(_)
        | Stage::Sending { .. }
        | Stage::Noticing { .. }
        | Stage::Restarting { .. } => Move::Stay,
    }
}

// The answer to the start text fits only byte for byte.
fn text_move(first: Rate, line: &[u8]) -> Move
    ensures { result ≡ text_move first line.now }
{
    if line == commands::START_ANSWER.as_slice() {
        return Move::Enter(Stage::Asking(first));
    }
    Move::Stay
}

// What ACK 00, 01 and 02 lead to; 10 asks for the frame again, any other counts as no answer.
#[tactic(auto, using(host_model::proofs::AnswersLaws::ack_accepted, host_model::proofs::AnswersLaws::ack_first, host_model::proofs::AnswersLaws::ack_second, host_model::proofs::AnswersLaws::ack_again, host_model::proofs::AnswersLaws::ack_other))]
fn by_ack(ack: u8, yes: Move, first: Move, second: Move) -> Move
    ensures { result ≡ by_ack ack yes first second }
{
    match ack {
        commands::ACCEPTED => yes,
        commands::WRONG_FIRST => first,
        commands::WRONG_SECOND => second,
        commands::NOT_UNDERSTOOD => Move::Resend,
        _ => Move::Stay,
    }
}

// The rate asked for with its ACK; rate 0 fits with ACK 10.
#[tactic(auto, using(host_model::proofs::AnswersLaws::rate_asked, host_model::proofs::AnswersLaws::rate_none, host_model::proofs::AnswersLaws::rate_other))]
fn rate_move(asked: Rate, rate: u8, ack: u8) -> Move
    ensures { result ≡ rate_move asked rate ack }
{
    if rate == rate_number(asked) {
        return by_ack(
            ack,
            Move::Enter(Stage::Declaring(asked)),
            lower(asked),
            Move::Stay,
        );
    }
    if rate == 0 {
        return by_ack(ack, Move::Stay, Move::Stay, Move::Stay);
    }
    Move::Stay
}

// A refused rate: one lower, below 9600 the load fails.
fn lower(rate: Rate) -> Move
    ensures { result ≡ lower_move rate }
{
    match rate {
        Rate::R9600 => refuse(commands::WRONG_FIRST),
        Rate::R19200 => Move::Enter(Stage::Asking(Rate::R9600)),
        Rate::R38400 => Move::Enter(Stage::Asking(Rate::R19200)),
        Rate::R57600 => Move::Enter(Stage::Asking(Rate::R38400)),
        Rate::R115200 => Move::Enter(Stage::Asking(Rate::R57600)),
    }
}

fn refuse(ack: u8) -> Move
    ensures { result ≡ Move.Refuse Refusal.ModuleRefused ack }
{
    Move::Refuse {
        refusal: Refusal::ModuleRefused,
        passed: ack,
    }
}

// The same version: the packet is taken as accepted, or the load stops.
fn same_move(same: Same, accepted: Move) -> Move
    ensures { result ≡ same_move same accepted }
{
    match same {
        Same::GoOn => accepted,
        Same::Stop => refuse(commands::WRONG_SECOND),
    }
}

// State 0 is success, any other is passed on.
#[tactic(auto, using(host_model::proofs::AnswersLaws::notice_good, host_model::proofs::AnswersLaws::notice_bad))]
fn notice_move(rate: Rate, size: usize, state: u8) -> Move
    ensures { result ≡ notice_move rate size state }
{
    if state == 0 {
        return Move::Enter(Stage::Restarting { rate, size });
    }
    Move::Refuse {
        refusal: Refusal::BadNotice,
        passed: state,
    }
}

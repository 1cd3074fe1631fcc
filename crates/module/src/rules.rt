// The rules of the four commands. All of them decide and none writes: what to say, what to put where, and the phase after it.
ghost use Rattle.std.specs.Prelude.{◌≡◌};
ghost use Rattle.module_model.specs.Phases.{total_of};
ghost use Rattle.module_model.specs.Rules.{unmoved, rate_ack, rate_decision, parameters_decision, kind_decision, restart_decision};
ghost use Rattle.module_model.specs.Rules.{numbers_in, well_formed, not_taken, cuts_into, place_of, is_packet, is_repeat, phase_at};
ghost use Rattle.module_model.specs.Rules.{state_of, say_of, acknowledge_of, taken, repeat_decision, first_decision, loading_decision};
ghost use Rattle.module_model.specs.Rules.{done_decision, phase_decision, packet_decision, decide_of, put_of};
ghost use Rattle.module_model.specs.Bounds.{Bounded};

use crate::open::Open;
use crate::packets::{Packet, Place};
use commands::LARGEST_PACKET;
use kinds::Kind;
use module_model::{
    ADDRESS_AT, Decision, LENGTH_AT, Numbers, PACKET_HEAD, PARAMETERS_LENGTH, Phase, Pieces,
    STATE_SHORT, STATE_WHOLE, Say, TYPE_AT, Transfer,
};

impl Open {
    // What a frame does to the session.
    #[tactic(auto, unfolding(module_model::specs::Rules::decide_of))]
    pub(crate) fn decide(self, command: u8, payload: &[u8], flash: &[u8]) -> Decision
        ensures { result ≡ decide_of self.session.phase command payload.now flash.now }
    {
        let phase = self.session.phase;
        match command {
            commands::RATE => rate(phase, payload),
            commands::PARAMETERS => parameters(phase, payload, flash.len()),
            commands::PACKET => self.packet(payload, flash),
            commands::RESTART => restart(phase, payload),
            _ => unmoved_say(phase, Say::Nothing),
        }
    }

    // 0x05: the expected packet, a repeat of the one just accepted, or refused with PkNo 0.
    #[tactic(auto, unfolding(module_model::specs::Rules::packet_decision))]
    fn packet(self, payload: &[u8], flash: &[u8]) -> Decision
        ensures { result ≡ packet_decision self.session.phase payload.now flash.now }
    {
        let numbers = numbers_in(payload);
        if !well_formed(payload.len(), numbers.size) {
            return packet_refused(self.session.phase);
        }
        let packet = Packet {
            numbers,
            bytes: octets::behind(payload, PACKET_HEAD),
        };
        self.packet_at(packet, flash)
    }

    fn packet_at(self, packet: Packet, flash: &[u8]) -> Decision
        ensures { result ≡ phase_decision self.session.phase packet.entry.numbers packet.entry.bytes.now flash.now }
    {
        let phase = self.session.phase;
        match phase {
            Phase::Closed | Phase::Ready => packet_refused(phase),
            Phase::Begun(transfer) => first(transfer, packet),
            Phase::Loading {
                pieces,
                number,
                written,
            } => next(pieces, number, written, packet, flash),
            Phase::Done { pieces, written } => last(pieces, written, packet, flash),
        }
    }
}

// Puts the data of a packet, which stand behind its three numbers, where they go.
pub(crate) fn store(place: Option<usize>, payload: &[u8], flash: &mut [u8])
    ensures { flash.new ≡ put_of place payload.now flash.old }
{
    if let Some(at) = place {
        octets::copy(octets::behind(payload, PACKET_HEAD), flash, at);
    }
}

// The session stays where it is and nothing is put.
fn unmoved_say(phase: Phase, say: Say) -> Decision
    ensures { result ≡ unmoved phase say }
{
    Decision {
        phase,
        say,
        put: None,
    }
}

// 0x01: the rate asked for, and whether it is one of five.
#[tactic(auto, unfolding(module_model::specs::Rules::rate_decision))]
fn rate(phase: Phase, payload: &[u8]) -> Decision
    ensures { result ≡ rate_decision phase payload.now }
{
    match *payload {
        [asked] => unmoved_say(
            phase,
            Say::Rate {
                rate: asked,
                ack: rate_ack(asked),
            },
        ),
        _ => unmoved_say(
            phase,
            Say::Rate {
                rate: 0,
                ack: commands::NOT_UNDERSTOOD,
            },
        ),
    }
}

#[tactic(auto, unfolding(module_model::specs::Rules::rate_ack))]
fn rate_ack(rate: u8) -> u8
    ensures { result ≡ rate_ack rate }
{
    match rate {
        1..=5 => commands::ACCEPTED,
        _ => commands::WRONG_FIRST,
    }
}

// 0x02: payload length, type, address, length, in this order.
#[tactic(auto, unfolding(module_model::specs::Rules::parameters_decision))]
fn parameters(phase: Phase, payload: &[u8], flash: usize) -> Decision
    ensures { result ≡ parameters_decision phase payload.now flash }
{
    if payload.len() != PARAMETERS_LENGTH {
        return parameters_say(phase, commands::NOT_UNDERSTOOD);
    }
    let Some(kind) = kinds::kind_of(octets::two_at(payload, TYPE_AT)) else {
        return parameters_say(phase, commands::WRONG_FIRST);
    };
    parameters_of(phase, kind, payload, flash)
}

#[tactic(auto, unfolding(module_model::specs::Rules::kind_decision))]
fn parameters_of(phase: Phase, kind: Kind, payload: &[u8], flash: usize) -> Decision
    ensures { result ≡ kind_decision phase kind payload.now flash }
{
    if octets::four_at(payload, ADDRESS_AT) != kinds::token_of(kind) {
        return parameters_say(phase, commands::NOT_UNDERSTOOD);
    }
    let extent = octets::four_at(payload, LENGTH_AT) as usize;
    if !kinds::fits_flash(kind, extent, flash) {
        return parameters_say(phase, commands::WRONG_SECOND);
    }
    parameters_say(Phase::Begun(Transfer { kind, extent }), commands::ACCEPTED)
}

fn parameters_say(phase: Phase, ack: u8) -> Decision
    ensures { result ≡ unmoved phase (Say.Parameters ack) }
{
    unmoved_say(phase, Say::Parameters { ack })
}

// 0x06: restart closes the session.
#[tactic(auto, unfolding(module_model::specs::Rules::restart_decision))]
fn restart(phase: Phase, payload: &[u8]) -> Decision
    ensures { result ≡ restart_decision phase payload.now }
{
    if !payload.is_empty() {
        return unmoved_say(
            phase,
            Say::Restart {
                ack: commands::NOT_UNDERSTOOD,
            },
        );
    }
    unmoved_say(
        Phase::Closed,
        Say::Restart {
            ack: commands::ACCEPTED,
        },
    )
}

fn packet_refused(phase: Phase) -> Decision
    ensures { result ≡ not_taken phase }
{
    unmoved_say(
        phase,
        Say::Packet {
            number: 0,
            ack: commands::NOT_UNDERSTOOD,
        },
    )
}

#[tactic(auto, unfolding(module_model::specs::Rules::numbers_in))]
fn numbers_in(payload: &[u8]) -> Numbers
    ensures { result ≡ numbers_in payload.now }
{
    Numbers {
        total: usize::from(octets::two_at(payload, 0)),
        number: usize::from(octets::two_at(payload, 2)),
        size: usize::from(octets::two_at(payload, 4)),
    }
}

// The payload is 6 + PkSize, and PkSize is 1 to 1,024.
#[tactic(auto, unfolding(module_model::specs::Rules::well_formed))]
fn well_formed(extent: usize, size: usize) -> bool
    ensures { result ≡ well_formed extent size }
{
    1 <= size && size <= LARGEST_PACKET && extent == PACKET_HEAD + size
}

// Packet 1 sets the size.
#[tactic(auto, unfolding(module_model::specs::Rules::first_decision))]
fn first(transfer: Transfer, packet: Packet) -> Decision
    ensures { result ≡ first_decision transfer packet.entry.numbers }
{
    let given = packet.numbers;
    if given.number != 1 || !cuts_into(transfer.extent, given.total, given.size) {
        return packet_refused(Phase::Begun(transfer));
    }
    let pieces = Pieces {
        transfer,
        size: given.size,
    };
    Place { pieces, number: 1 }.taken(given.size)
}

// With Total 1 the size must be the length, else Total must be length / size rounded up.
#[tactic(auto, unfolding(module_model::specs::Rules::cuts_into))]
fn cuts_into(extent: usize, total: usize, size: usize) -> bool
    ensures { result ≡ cuts_into extent total size }
{
    if total == 1 {
        size == extent
    } else {
        total == pieces::count(extent, size)
    }
}

// While loading the next packet is taken, and a repeat of the one just accepted acknowledged.
#[tactic(auto, unfolding(module_model::specs::Rules::loading_decision))]
fn next(pieces: Pieces, number: usize, written: usize, packet: Packet, flash: &[u8]) -> Decision
    requires { Bounded pieces number written }
    ensures { result ≡ loading_decision pieces number written packet.entry.numbers packet.entry.bytes.now flash.now }
{
    let following = Place {
        pieces,
        number: number + 1,
    };
    if following.is_packet(packet.numbers) {
        return following.taken(written + packet.numbers.size);
    }
    let phase = Phase::Loading {
        pieces,
        number,
        written,
    };
    Place { pieces, number }.repeat(phase, packet, flash)
}

// When done no packet is expected; a repeat of the last one is acknowledged.
#[tactic(auto, unfolding(module_model::specs::Rules::done_decision))]
fn last(pieces: Pieces, written: usize, packet: Packet, flash: &[u8]) -> Decision
    requires { Bounded pieces (total_of pieces) written }
    ensures { result ≡ done_decision pieces written packet.entry.numbers packet.entry.bytes.now flash.now }
{
    let number = total_of(pieces);
    Place { pieces, number }.repeat(Phase::Done { pieces, written }, packet, flash)
}

impl Place {
    // A repeat is acknowledged again and nothing is put; any other packet is refused.
    #[tactic(auto, unfolding(module_model::specs::Rules::repeat_decision))]
    fn repeat(self, phase: Phase, packet: Packet, flash: &[u8]) -> Decision
        ensures { result ≡ repeat_decision phase self.pieces self.number packet.entry.numbers packet.entry.bytes.now flash.now }
    {
        if self.is_repeat(packet, flash) {
            acknowledge(phase, self.number, None)
        } else {
            packet_refused(phase)
        }
    }

    // Number, Total and size are those of this packet of the transfer.
    #[tactic(auto, unfolding(module_model::specs::Rules::is_packet))]
    fn is_packet(self, given: Numbers) -> bool
        ensures { result ≡ is_packet self.pieces self.number given }
    {
        given.number == self.number
            && given.total == total_of(self.pieces)
            && given.size
                == pieces::size_at(self.pieces.transfer.extent, self.pieces.size, self.number)
    }

    // A repeat has the same bytes as the flash, too.
    #[tactic(auto, using(octets::proofs::Words::same_pointwise), unfolding(module_model::specs::Rules::is_repeat))]
    fn is_repeat(self, packet: Packet, flash: &[u8]) -> bool
        ensures { result ≡ is_repeat self.pieces self.number packet.entry.numbers packet.entry.bytes.now flash.now }
    {
        self.is_packet(packet.numbers)
            && packet.bytes == octets::part(flash, self.start(), packet.numbers.size)
    }

    // An accepted packet goes to its place, and the session moves on.
    fn taken(self, written: usize) -> Decision
        ensures { result ≡ taken self.pieces self.number written }
    {
        let phase = phase_at(self.pieces, self.number, written);
        acknowledge(phase, self.number, Some(self.start()))
    }

    // Where a packet is written: the base of the type's image, and the packets before it.
    fn start(self) -> usize
        ensures { result ≡ place_of self.pieces self.number }
    {
        kinds::base_of(self.pieces.transfer.kind) as usize + (self.number - 1) * self.pieces.size
    }
}

fn acknowledge(phase: Phase, number: usize, put: Option<usize>) -> Decision
    ensures { result ≡ acknowledge_of phase number put }
{
    Decision {
        phase,
        say: say_of(phase, number),
        put,
    }
}

// Done with the last packet, else loading.
#[tactic(auto, unfolding(module_model::specs::Rules::phase_at))]
fn phase_at(pieces: Pieces, number: usize, written: usize) -> Phase
    ensures { result ≡ phase_at pieces number written }
{
    if number == total_of(pieces) {
        Phase::Done { pieces, written }
    } else {
        Phase::Loading {
            pieces,
            number,
            written,
        }
    }
}

// When done the notice follows the acknowledgement.
fn say_of(phase: Phase, number: usize) -> Say
    ensures { result ≡ say_of phase number }
{
    match phase {
        Phase::Closed | Phase::Ready | Phase::Begun(_) | Phase::Loading { .. } => Say::Packet {
            number,
            ack: commands::ACCEPTED,
        },
        Phase::Done { pieces, written } => Say::Last {
            number,
            state: state_of(pieces, written),
        },
    }
}

// State 0, or 1 if the count written is not the length.
#[tactic(auto, unfolding(module_model::specs::Rules::state_of))]
fn state_of(pieces: Pieces, written: usize) -> u8
    ensures { result ≡ state_of pieces written }
{
    if written == pieces.transfer.extent {
        STATE_WHOLE
    } else {
        STATE_SHORT
    }
}

fn total_of(pieces: Pieces) -> usize
    ensures { result ≡ total_of pieces }
{
    pieces::count(pieces.transfer.extent, pieces.size)
}

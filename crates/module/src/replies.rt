// Replies: each answer of the module as the wire form of a frame.
ghost use Rattle.std.specs.Prelude.{◌≡◌, ◌≤◌, length};
ghost use Rattle.octets.specs.Octets.{over};
ghost use Rattle.wire.specs.Frame.{frame};
ghost use Rattle.commands.specs.Commands.{packet_reply};
ghost use Rattle.module_model.specs.Rules.{frames_of};
ghost use Rattle.module.specs.Step.{wires_of, answer_of};
ghost use Rattle.module.specs.StepLaws.{short_payload, short_wire, Wrote};

use module_model::{Answer, SMALLEST_REPLY, Say};

// Room for all that is said at once: an array, as the library takes no memory.
pub(crate) type Reply = [u8; SMALLEST_REPLY];

// Writes what is to be said at the front of the reply buffer.
#[tactic(auto, using(crate::proofs::Room::wires_none, crate::proofs::Room::wires_one), unfolding(octets::specs::Octets::spelled))]
pub(crate) fn send(say: Say, reply: &mut Reply) -> Answer
    ensures { (result ≡ answer_of (frames_of say)) × (reply.new ≡ over (wires_of (frames_of say)) reply.old) }
{
    match say {
        Say::Nothing => Answer::Nothing,
        Say::Rate { rate, ack } => Answer::Sent(one(commands::RATE, &[rate, ack], reply)),
        Say::Parameters { ack } => {
            let [low, high, ..] = commands::LARGEST_PACKET.to_le_bytes();
            Answer::Sent(one(commands::PARAMETERS, &[low, high, ack], reply))
        }
        Say::Packet { number, ack } => Answer::Sent(packet(number, ack, reply)),
        Say::Last { number, state } => Answer::Sent(last(number, state, reply)),
        Say::Restart { ack } => Answer::Sent(one(commands::RESTART, &[ack], reply)),
    }
}

// The acknowledgement of a packet.
#[tactic(auto, unfolding(octets::specs::Octets::spelled))]
fn packet(number: usize, ack: u8, reply: &mut Reply) -> usize
    ensures { Wrote (packet_reply number ack) result reply.old reply.new }
{
    let [low, high, ..] = number.to_le_bytes();
    one(commands::PACKET, &[low, high, ack], reply)
}

// The acknowledgement of the last packet, and the notice behind it.
fn last(number: usize, state: u8, reply: &mut Reply) -> usize
    ensures { (result ≡ length (wires_of (frames_of (Say.Last number state))))
        × (reply.new ≡ over (wires_of (frames_of (Say.Last number state))) reply.old) }
{
    let n = packet(number, commands::ACCEPTED, reply);
    n + one(commands::NOTICE, &[state], &mut reply[n..])
}

// One frame of at most three payload bytes. Its length and the room are required, so the writer refuses nothing.
fn one(command: u8, payload: &[u8], reply: &mut [u8]) -> usize
    requires { (length payload.now ≤ short_payload) × (short_wire ≤ length reply.old) }
    ensures { Wrote (frame command payload.now) result reply.old reply.new }
{
    wire::write(command, payload, reply).unwrap_or(0)
}

// The commands of both ends by number, their acknowledgements, the texts before them, and the four commands as the host sends them.
#![tactic(auto)]

ghost use Rattle.std.specs.Prelude.{◌≡◌};
ghost use Rattle.wire.specs.Write.{write_of};
ghost use Rattle.commands.specs.Commands.{rate_frame, parameters_frame, packet_frame, restart_frame};

use kinds::Kind;
use refusals::Refusal;

// Commands and acknowledgements are bytes of the wire, of which any may come and each is answered (`decide_of`, `frame_move`): so they are
// numbers and no enum.
pub const RATE: u8 = 0x01;

pub const PARAMETERS: u8 = 0x02;

pub const PACKET: u8 = 0x05;

pub const RESTART: u8 = 0x06;

pub const NOTICE: u8 = 0x86;

pub const ACCEPTED: u8 = 0x00;

pub const WRONG_FIRST: u8 = 0x01;

pub const WRONG_SECOND: u8 = 0x02;

pub const NOT_UNDERSTOOD: u8 = 0x10;

// The largest packet and the largest Total.
pub const LARGEST_PACKET: usize = 1024;

pub const LARGEST_TOTAL: usize = 65535;

// The start text and its answer, each with CR LF.
pub const START_TEXT: [u8; 12] = *b"$PCAS20*03\r\n";

pub const START_ANSWER: [u8; 14] = *b"$PCAS30,3*1D\r\n";

// Writes 0x01: the rate, by number, since `rate_frame` writes any.
pub fn write_rate(rate: u8, out: &mut [u8]) -> Result<usize, Refusal>
    ensures { record { answer = result; output = out.new } ≡ write_of (rate_frame rate) out.old }
{
    wire::write(RATE, &[rate], out)
}

// Writes 0x02: type, length and token of an image. Payloads are arrays, as the library takes no memory.
#[tactic(auto, using(crate::specs::CommandsLaws::parameters_built))]
pub fn write_parameters(kind: Kind, extent: usize, out: &mut [u8]) -> Result<usize, Refusal>
    ensures { record { answer = result; output = out.new } ≡ write_of (parameters_frame kind extent) out.old }
{
    let mut payload = [0u8; 10];
    octets::put_two(&mut payload, 0, kinds::number_of(kind));
    octets::put_four(&mut payload, 2, (extent % 4294967296) as u32);
    octets::put_four(&mut payload, 6, kinds::token_of(kind));
    wire::write(PARAMETERS, &payload, out)
}

// Writes 0x05: Total, PkNo, PkSize and the piece, which is a part of the image. Each number is cut to its field first: `as` takes only one
// that fits.
#[tactic(auto, using(wire::specs::WriteLaws::write_too_long, crate::specs::CommandsLaws::length_packet, crate::specs::CommandsLaws::packet_built))]
pub fn write_packet(
    image: &[u8],
    size: usize,
    number: usize,
    out: &mut [u8],
) -> Result<usize, Refusal>
    ensures { record { answer = result; output = out.new }
        ≡ write_of (packet_frame image.now size number) out.old }
{
    let piece = pieces::piece(image, size, number);
    let n = piece.len();
    if LARGEST_PACKET < n {
        return Err(Refusal::PayloadTooLong);
    }
    let mut payload = [0u8; wire::PAYLOAD_MOST];
    octets::put_two(
        &mut payload,
        0,
        (pieces::count(image.len(), size) % 65536) as u16,
    );
    octets::put_two(&mut payload, 2, (number % 65536) as u16);
    octets::put_two(&mut payload, 4, (n % 65536) as u16);
    octets::copy(piece, &mut payload, 6);
    wire::write(PACKET, &payload[..n + 6], out)
}

// Writes 0x06, which carries nothing.
pub fn write_restart(out: &mut [u8]) -> Result<usize, Refusal>
    ensures { record { answer = result; output = out.new } ≡ write_of restart_frame out.old }
{
    wire::write(RESTART, &[], out)
}

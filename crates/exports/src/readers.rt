// The reader, kept by its caller as bytes.
ghost use Rattle.std.specs.Prelude.{◌≡◌};
ghost use Rattle.octets.specs.Octets.{part_of};
ghost use Rattle.kept_reader.specs.Kept.{payload_place, kept_new, kept_step};
ghost use Rattle.exports.specs.Flat.{stretch_of};

use crate::files::stretch;
use kept_reader::PAYLOAD_PLACE;

#[unsafe(no_mangle)]
pub extern "C" fn zrn_reader_new(state: &mut [u8]) -> u8
    ensures { record { answer = result; state = state.new } ≡ kept_new state.old }
{
    kept_reader::new(state)
}

#[unsafe(no_mangle)]
pub extern "C" fn zrn_reader_step(
    state: &mut [u8],
    byte: u8,
    command: &mut u8,
    count: &mut usize,
) -> u8
    ensures { record { answer = result; command = command.new; count = count.new; state = state.new }
        ≡ kept_step state.old byte }
{
    kept_reader::step(state, byte, command, count)
}

#[unsafe(no_mangle)]
pub extern "C" fn zrn_reader_payload(state: &[u8], count: usize, place: &mut usize) -> usize
    ensures { record { count = result; place = place.new } ≡ stretch_of payload_place (part_of state.now payload_place count) }
{
    stretch(state, PAYLOAD_PLACE, count, place)
}

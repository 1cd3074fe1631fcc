// The wire: frames written, their content tested, the escape; and the words of refusals.
ghost use Rattle.std.specs.Prelude.{◌≡◌};
ghost use Rattle.refusals.specs.Refusals.{say_of, words_of};
ghost use Rattle.refusals.specs.Written.{numbered, number_in, count_in};
ghost use Rattle.wire.specs.Escape.{may_follow, original_of};
ghost use Rattle.wire.specs.Frame.{frame, is_content};
ghost use Rattle.wire.specs.Write.{write_of};
ghost use Rattle.exports.specs.Flat.{written_flat};

use refusals::Refusal;

#[unsafe(no_mangle)]
pub extern "C" fn zrn_words(number: u8, out: &mut [u8]) -> usize
    ensures { record { count = result; output = out.new } ≡ say_of (words_of number) out.old }
{
    refusals::words(number, out)
}

#[unsafe(no_mangle)]
pub extern "C" fn zrn_frame_write(
    command: u8,
    payload: &[u8],
    out: &mut [u8],
    count: &mut usize,
) -> u8
    ensures { record { answer = result; count = count.new; output = out.new }
        ≡ written_flat (write_of (frame command payload.now) out.old) }
{
    let written = wire::write(command, payload, out);
    *count = count_of(written);
    number_of(numbered(written))
}

#[unsafe(no_mangle)]
pub extern "C" fn zrn_frame_is_content(content: &[u8]) -> bool
    ensures { result ≡ is_content content.now }
{
    wire::is_content(content)
}

#[unsafe(no_mangle)]
pub extern "C" fn zrn_escape_may_follow(byte: u8) -> bool
    ensures { result ≡ may_follow byte }
{
    wire::may_follow(byte)
}

#[unsafe(no_mangle)]
pub extern "C" fn zrn_escape_original(byte: u8) -> u8
    ensures { result ≡ original_of byte }
{
    wire::original(byte)
}

// What a call that writes has answered, its refusal by number.
pub(crate) fn numbered(written: Result<usize, Refusal>) -> Result<usize, u8>
    ensures { result ≡ numbered written }
{
    written.map_err(Refusal::number)
}

// The number of such an answer, whatever number a refusal has; and the bytes written, however a refusal is told.
pub fn number_of(written: Result<usize, u8>) -> u8
    ensures { result ≡ number_in written }
{
    match written {
        Ok(_) => flat::WRITTEN,
        Err(number) => number,
    }
}

pub fn count_of<R: Copy>(written: Result<usize, R>) -> usize
    ensures { result ≡ count_in written }
{
    written.unwrap_or(0)
}

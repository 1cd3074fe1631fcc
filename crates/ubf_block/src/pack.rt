// Writing one block. Every test comes before the first byte, so a refusal leaves the output as lent.
ghost use Rattle.std.specs.Prelude.{◌≡◌, ◌+◌, ◌-◌, ◌≤◌, ◌<◌, length, replicate};
ghost use Rattle.octets.specs.Octets.{spelled, laid, lay_all, xor_words};
ghost use Rattle.kinds.specs.Kinds.{kind_of};
ghost use Rattle.ubf_model.specs.Block.{header_size};
ghost use Rattle.ubf_model.specs.Pack.{
  gathered,
  filled,
  header_pieces,
  pairs,
  fits,
  pack_of,
};
ghost use Rattle.ubf_model.specs.Room.{HeaderRoom};

use crate::block::Texts;
use refusals::Refusal;
use ubf_model::{
    ADDRESS_PLACE, DATE_PLACE, DATE_SIZE, HEADER_SIZE, LENGTH_PLACE, MARK_PLACE, MODEL_PLACE,
    MODEL_SIZE, NAME_PLACE, NAME_SIZE, Numbers, START_PLACE, TYPE_PLACE, VERSION_PLACE,
    VERSION_SIZE,
};

// Writes a block into the output: type, address and start of the image, four texts without their zeros, the image.
// C (zrn_ubf_write) gives each text by itself, so each stays a parameter of its own; inside they are `Texts`.
#[tactic(auto, unfolding(ubf_model::specs::Pack::pack_of))]
pub fn write(
    numbers: Numbers,
    model: &[u8],
    version: &[u8],
    name: &[u8],
    date: &[u8],
    image: &[u8],
    out: &mut [u8],
) -> Result<usize, Refusal>
    ensures { record { answer = result; output = out.new }
        ≡ pack_of (gathered numbers model.now version.now name.now date.now image.now) out.old }
{
    if !type_pairs(numbers.number, numbers.address) {
        return Err(Refusal::WrongType);
    }
    if !image_fits(numbers.number, image.len()) {
        return Err(Refusal::WrongImageLength);
    }
    let start = numbers.start as usize;
    if start < HEADER_SIZE {
        return Err(Refusal::WrongStart);
    }
    let texts = Texts {
        model,
        version,
        name,
        date,
    };
    if !texts.fit() {
        return Err(Refusal::NotZeroFilled);
    }
    let size = start + image.len() + 4;
    if out.len() < size {
        return Err(Refusal::NoRoom);
    }
    lay_header(numbers, texts, image, out);
    lay_image(start, image, out);
    Ok(size)
}

// Whether a type is known and has this address.
fn type_pairs(number: u16, address: u32) -> bool
    ensures { result ≡ pairs (kind_of number) address }
{
    kinds::kind_of(number).is_some_and(|kind| address == kinds::base_of(kind))
}

// Whether a type is known and may have an image of this length.
fn image_fits(number: u16, extent: usize) -> bool
    ensures { result ≡ fits (kind_of number) extent }
{
    kinds::kind_of(number).is_some_and(|kind| kinds::fits_file(kind, extent))
}

// Every field of the header at its offset.
fn lay_header(numbers: Numbers, texts: Texts, image: &[u8], out: &mut [u8])
    requires { HeaderRoom
        (gathered
        numbers
        texts.model.now
        texts.version.now
        texts.name.now
        texts.date.now
        image.now)
        out.old }
    ensures { out.new
        ≡ lay_all
        out.old
        0
        (header_pieces
        (gathered
        numbers
        texts.entry.model.now
        texts.entry.version.now
        texts.entry.name.now
        texts.entry.date.now
        image.now)) }
{
    octets::copy(b"AT", out, MARK_PLACE);
    octets::put_four(out, LENGTH_PLACE, image.len() as u32);
    octets::put_four(out, ADDRESS_PLACE, numbers.address);
    octets::put_four(out, START_PLACE, numbers.start);
    octets::put_two(out, TYPE_PLACE, numbers.number);
    lay_text(texts.model, MODEL_SIZE, out, MODEL_PLACE);
    lay_text(texts.version, VERSION_SIZE, out, VERSION_PLACE);
    lay_text(texts.name, NAME_SIZE, out, NAME_PLACE);
    lay_text(texts.date, DATE_SIZE, out, DATE_PLACE);
}

// A text in its field of n bytes, the rest of it zeros.
fn lay_text(text: &[u8], n: usize, out: &mut [u8], at: usize)
    requires { (length text.now ≤ n) × (at + n ≤ length out.old) }
    ensures { out.new ≡ laid out.old at (filled n text.now) }
{
    let text_length = text.len();
    octets::copy(text, out, at);
    octets::fill(out, at + text_length, n - text_length, 0);
}

// Zeros up to the start, the image, and the check that is worked out from it.
fn lay_image(start: usize, image: &[u8], out: &mut [u8])
    requires { (header_size ≤ start) × (start + length image.now ≤ length out.old) }
    ensures { out.new
        ≡ laid
        (laid (laid out.old header_size (replicate (start - header_size) 0)) start image.now)
        (start + length image.now)
        (spelled 4 (xor_words image.now)) }
{
    octets::fill(out, HEADER_SIZE, start - HEADER_SIZE, 0);
    octets::copy(image, out, start);
    octets::put_four(out, start + image.len(), octets::xor_words(image));
}

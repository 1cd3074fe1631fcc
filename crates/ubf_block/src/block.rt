// One block at the front of some bytes: its fields, and its texts and image as parts of those bytes.
ghost use Rattle.std.specs.Prelude.{◌≡◌, ◌-◌, ◌<◌};
ghost use Rattle.octets.specs.Octets.{same_bytes, part_of, xor_words};
ghost use Rattle.ubf_model.specs.Block.{header_size, mark_in, mark, start_in, model_in, version_in, name_in, date_in, text_fits, texts_fit, filled_in, size_of, image_of, kind_block, block_of};

use kinds::Kind;
use refusals::Refusal;
use ubf_model::{
    ADDRESS_PLACE, Block, DATE_PLACE, DATE_SIZE, HEADER_SIZE, LENGTH_PLACE, MARK_PLACE,
    MODEL_PLACE, MODEL_SIZE, NAME_PLACE, NAME_SIZE, START_PLACE, TYPE_PLACE, VERSION_PLACE,
    VERSION_SIZE,
};

// Reads the block at the front.
#[tactic(auto, unfolding(ubf_model::specs::Block::block_of))]
pub fn read(s: &[u8]) -> Result<Block, Refusal>
    ensures { result ≡ block_of s.now }
{
    if s.len() < HEADER_SIZE {
        return Err(Refusal::FileEnds);
    }
    if !marked(s) {
        return Err(Refusal::WrongMark);
    }
    let kind = kinds::kind_of(octets::two_at(s, TYPE_PLACE)).ok_or(Refusal::WrongType)?;
    read_kind(s, kind)
}

#[tactic(auto, unfolding(ubf_model::specs::Block::kind_block))]
fn read_kind(s: &[u8], kind: Kind) -> Result<Block, Refusal>
    ensures { result ≡ kind_block kind s.now }
{
    if octets::four_at(s, ADDRESS_PLACE) != kinds::base_of(kind) {
        return Err(Refusal::WrongType);
    }
    let extent = octets::four_at(s, LENGTH_PLACE);
    let long = extent as usize;
    if !kinds::fits_file(kind, long) {
        return Err(Refusal::WrongImageLength);
    }
    let start = octets::four_at(s, START_PLACE);
    let from = start as usize;
    if from < HEADER_SIZE {
        return Err(Refusal::WrongStart);
    }
    if s.len() < from + long + 4 {
        return Err(Refusal::FileEnds);
    }
    if !filled(s, from - HEADER_SIZE) {
        return Err(Refusal::NotZeroFilled);
    }
    let check = octets::four_at(s, from + long);
    if check != xor_of_part(s, from, long) {
        return Err(Refusal::WrongImageCheck);
    }
    Ok(Block {
        kind,
        extent,
        start,
        check,
    })
}

// How many bytes the block takes.
pub fn size(block: Block) -> usize
    ensures { result ≡ size_of block }
{
    block.start as usize + block.extent as usize + 4
}

// The image, as a part of the bytes that the block was read from.
pub fn image(s: &[u8], block: Block) -> &[u8]
    ensures { result.now ≡ image_of block s.now }
{
    octets::part(s, block.start as usize, block.extent as usize)
}

// The texts, each with the zeros that fill its field, as parts of the bytes: one `octets::part` each, under the name that C and PROMISES
// call it by.
pub fn model(s: &[u8]) -> &[u8]
    ensures { result.now ≡ model_in s.now }
{
    octets::part(s, MODEL_PLACE, MODEL_SIZE)
}

pub fn version(s: &[u8]) -> &[u8]
    ensures { result.now ≡ version_in s.now }
{
    octets::part(s, VERSION_PLACE, VERSION_SIZE)
}

pub fn file_name(s: &[u8]) -> &[u8]
    ensures { result.now ≡ name_in s.now }
{
    octets::part(s, NAME_PLACE, NAME_SIZE)
}

pub fn date(s: &[u8]) -> &[u8]
    ensures { result.now ≡ date_in s.now }
{
    octets::part(s, DATE_PLACE, DATE_SIZE)
}

#[tactic(auto, using(octets::proofs::Words::same_pointwise))]
fn marked(s: &[u8]) -> bool
    ensures { result ≡ same_bytes (mark_in s.now) mark }
{
    octets::part(s, MARK_PLACE, 2) == b"AT".as_slice()
}

// Whether the texts and the gap up to the image are filled with zeros.
#[tactic(auto, unfolding(ubf_model::specs::Block::filled_in))]
fn filled(s: &[u8], gap: usize) -> bool
    requires { gap ≡ start_in s.now - header_size }
    ensures { result ≡ filled_in s.now }
{
    Texts::of(s).fit() && octets::zeros(octets::part(s, HEADER_SIZE, gap))
}

// The four texts of a block.
#[derive(Clone, Copy)]
pub(crate) struct Texts<'a> {
    pub(crate) model: &'a [u8],
    pub(crate) version: &'a [u8],
    pub(crate) name: &'a [u8],
    pub(crate) date: &'a [u8],
}

impl<'a> Texts<'a> {
    // The fields of a block, each with the zeros that fill it.
    fn of(s: &'a [u8]) -> Texts<'a>
        ensures model { result.model.now ≡ model_in s.now }
        ensures version { result.version.now ≡ version_in s.now }
        ensures name { result.name.now ≡ name_in s.now }
        ensures date { result.date.now ≡ date_in s.now }
    {
        Texts {
            model: model(s),
            version: version(s),
            name: file_name(s),
            date: date(s),
        }
    }

    // Whether each can stand in its field.
    #[tactic(auto, unfolding(ubf_model::specs::Block::texts_fit))]
    pub(crate) fn fit(self) -> bool
        ensures { result ≡ texts_fit self.entry.model.now self.entry.version.now self.entry.name.now self.entry.date.now }
    {
        text_fits(self.model, MODEL_SIZE)
            && text_fits(self.version, VERSION_SIZE)
            && text_fits(self.name, NAME_SIZE)
            && text_fits(self.date, DATE_SIZE)
    }
}

// Whether a field of n bytes can hold a text.
#[tactic(auto, unfolding(ubf_model::specs::Block::text_fits))]
fn text_fits(text: &[u8], n: usize) -> bool
    ensures { result ≡ text_fits n text.now }
{
    text.len() <= n && octets::zero_filled(text)
}

fn xor_of_part(s: &[u8], at: usize, n: usize) -> u32
    ensures { result ≡ xor_words (part_of s.now at n) }
{
    octets::xor_words(octets::part(s, at, n))
}

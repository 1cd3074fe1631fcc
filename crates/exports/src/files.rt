// UBF files: a block read and written, the n-th of a file, and where its image and texts stand.
ghost use Rattle.std.specs.Prelude.{◌≡◌, ◌+◌};
ghost use Rattle.octets.specs.Octets.{part_of};
ghost use Rattle.kinds.specs.Kinds.{kind_of};
ghost use Rattle.ubf_model.specs.Block.{model_place, version_place, name_place, date_place, model_in, version_in, name_in, date_in, block_of};
ghost use Rattle.ubf_model.specs.Pack.{gathered, pack_of};
ghost use Rattle.ubf_model.specs.Walk.{block_at};
ghost use Rattle.exports.specs.Flat.{written_flat, stretch_of, with_block, without_block, found_flat, nth_flat, address_flat};

use crate::frames::{count_of, number_of, numbered};
use refusals::Refusal;
use ubf::{Block, Nth, Numbers};
use ubf_model::{
    DATE_PLACE, DATE_SIZE, MODEL_PLACE, MODEL_SIZE, NAME_PLACE, NAME_SIZE, VERSION_PLACE,
    VERSION_SIZE,
};

// An answer with every number of a block beside it; 0 where there is none.
#[derive(Clone, Copy, Default)]
pub struct Answered {
    pub answer: u8,
    pub kind: u16,
    pub extent: u32,
    pub start: u32,
    pub check: u32,
    pub place: usize,
    pub count: usize,
}

// The numbers of an answer, here and in numbers_in: each is used once, so a From would be no plainer.
fn numbers_of(nth: Nth) -> Answered
    ensures { result ≡ nth_flat nth }
{
    match nth {
        Nth::Found { block, place } => with_block(block, place),
        Nth::Past { count } => without_block(flat::PAST, 0, count),
        Nth::Refused {
            refusal,
            place,
            count,
        } => without_block(refusal.number(), place, count),
    }
}

// A block at its place.
fn with_block(block: Block, place: usize) -> Answered
    ensures { result ≡ with_block block place }
{
    let kind = block.kind;
    Answered {
        answer: flat::FOUND,
        kind: kinds::number_of(kind),
        extent: block.extent,
        start: block.start,
        check: block.check,
        place,
        count: 0,
    }
}

// An answer without a block.
fn without_block(answer: u8, place: usize, count: usize) -> Answered
    ensures { result ≡ without_block answer place count }
{
    Answered {
        answer,
        place,
        count,
        ..Answered::default()
    }
}

#[unsafe(no_mangle)]
pub extern "C" fn zrn_type_address(kind: u16, address: &mut u32) -> bool
    ensures { record { known = result; address = address.new } ≡ address_flat (kind_of kind) }
{
    let base = kinds::kind_of(kind).map(kinds::base_of);
    *address = base.unwrap_or(0);
    base.is_some()
}

#[unsafe(no_mangle)]
pub extern "C" fn zrn_ubf_read(
    block: &[u8],
    kind: &mut u16,
    extent: &mut u32,
    start: &mut u32,
    check: &mut u32,
) -> u8
    ensures { record {
      answer = result;
      kind = kind.new;
      extent = extent.new;
      start = start.new;
      check = check.new;
      place = 0;
      count = 0;
    } ≡ found_flat (block_of block.now) }
{
    let found = numbers_in(ubf::read(block));
    *kind = found.kind;
    *extent = found.extent;
    *start = found.start;
    *check = found.check;
    found.answer
}

fn numbers_in(found: Result<Block, Refusal>) -> Answered
    ensures { result ≡ found_flat found }
{
    match found {
        Ok(block) => with_block(block, 0),
        Err(refusal) => without_block(refusal.number(), 0, 0),
    }
}

#[unsafe(no_mangle)]
pub extern "C" fn zrn_ubf_block_at(
    file: &[u8],
    n: usize,
    kind: &mut u16,
    extent: &mut u32,
    start: &mut u32,
    check: &mut u32,
    place: &mut usize,
    count: &mut usize,
) -> u8
    ensures { record {
      answer = result;
      kind = kind.new;
      extent = extent.new;
      start = start.new;
      check = check.new;
      place = place.new;
      count = count.new;
    } ≡ nth_flat (block_at n file.now) }
{
    let nth = numbers_of(ubf::block_at(file, n));
    *kind = nth.kind;
    *extent = nth.extent;
    *start = nth.start;
    *check = nth.check;
    *place = nth.place;
    *count = nth.count;
    nth.answer
}

#[unsafe(no_mangle)]
pub extern "C" fn zrn_ubf_image(block: &[u8], start: u32, extent: u32, place: &mut usize) -> usize
    ensures { record { count = result; place = place.new } ≡ stretch_of start (part_of block.now start extent) }
{
    stretch(block, flat::wide(start), flat::wide(extent), place)
}

// The four texts have a call each, since C has a name for each.
#[unsafe(no_mangle)]
pub extern "C" fn zrn_ubf_model(block: &[u8], place: &mut usize) -> usize
    ensures { record { count = result; place = place.new } ≡ stretch_of model_place (model_in block.now) }
{
    stretch(block, MODEL_PLACE, MODEL_SIZE, place)
}

#[unsafe(no_mangle)]
pub extern "C" fn zrn_ubf_version(block: &[u8], place: &mut usize) -> usize
    ensures { record { count = result; place = place.new } ≡ stretch_of version_place (version_in block.now) }
{
    stretch(block, VERSION_PLACE, VERSION_SIZE, place)
}

#[unsafe(no_mangle)]
pub extern "C" fn zrn_ubf_file_name(block: &[u8], place: &mut usize) -> usize
    ensures { record { count = result; place = place.new } ≡ stretch_of name_place (name_in block.now) }
{
    stretch(block, NAME_PLACE, NAME_SIZE, place)
}

#[unsafe(no_mangle)]
pub extern "C" fn zrn_ubf_date(block: &[u8], place: &mut usize) -> usize
    ensures { record { count = result; place = place.new } ≡ stretch_of date_place (date_in block.now) }
{
    stretch(block, DATE_PLACE, DATE_SIZE, place)
}

#[unsafe(no_mangle)]
pub extern "C" fn zrn_ubf_size(start: u32, extent: u32) -> usize
    ensures { result ≡ start + extent + 4 }
{
    flat::wide(start) + flat::wide(extent) + 4
}

#[unsafe(no_mangle)]
pub extern "C" fn zrn_ubf_write(
    kind: u16,
    address: u32,
    start: u32,
    model: &[u8],
    version: &[u8],
    name: &[u8],
    date: &[u8],
    image: &[u8],
    out: &mut [u8],
    count: &mut usize,
) -> u8
    ensures { record { answer = result; count = count.new; output = out.new }
        ≡ written_flat
        (pack_of
        (gathered
        (record { number = kind; address = address; start = start })
        model.now
        version.now
        name.now
        date.now
        image.now)
        out.old) }
{
    let numbers = Numbers {
        number: kind,
        address,
        start,
    };
    let written = ubf::write(numbers, model, version, name, date, image, out);
    *count = count_of(written);
    number_of(numbered(written))
}

// How many of n bytes from a place on are there.
pub fn stretch(s: &[u8], at: usize, n: usize, place: &mut usize) -> usize
    ensures { record { count = result; place = place.new } ≡ stretch_of at (part_of s.now at n) }
{
    *place = at;
    octets::part(s, at, n).len()
}

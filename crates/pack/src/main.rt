// Makes a UBF file of one block from a raw image file and the block's fields.
#![tactic(auto)]

use console::{FileError, Placed, Refused, Text, Word};
use refusals::Refusal;
use std::alloc::{AllocError, Global};
use std::rt::Files;
use ubf::{Block, Numbers};

// What the arguments ask for, as they were given.
#[derive(Clone, Copy)]
struct Wish<'a> {
    image: &'a [u8],
    out: &'a [u8],
    kind: &'a [u8],
    start: &'a [u8],
    model: &'a [u8],
    version: &'a [u8],
    name: &'a [u8],
    date: &'a [u8],
}

// Why there is no block.
#[derive(Clone, Copy, Debug, PartialEq, Eq)]
enum Unpacked {
    NoNumbers,
    Refused(Refusal),
    NoMemory,
}

impl From<AllocError> for Unpacked {
    fn from(_error: AllocError) -> Unpacked {
        Unpacked::NoMemory
    }
}

impl From<Refusal> for Unpacked {
    fn from(refusal: Refusal) -> Unpacked {
        Unpacked::Refused(refusal)
    }
}

// Its own name and eight more, and one that would be too many.
const WORDS: usize = 10;

// Each program has such a main: a common one would be a public call that only runs what it is handed, of which no contract could say
// anything.
fn main(rt: HostRuntime) {
    let err = rt.stderr();
    match console::arguments(&rt, WORDS) {
        Ok(words) => pack(&rt, &err, &words),
        Err(error) => console::fail(&err, b"pack", &error),
    }
}

// Here and below a line that can't be written is let be, and the next one is tried.
fn pack(rt: &(impl Files + Print + AllocGlobal), err: &impl Print, words: &[Vec<u8>]) {
    match words {
        [_, image, out, kind, start, model, version, name, date] if image.len() <= console::PATH =>
            {
                let wish = Wish {
                    image,
                    out,
                    kind,
                    start,
                    model,
                    version,
                    name,
                    date,
                };
                pack_file(rt, err, wish)
            }
        _ => usage(rt),
    }
}

fn usage(rt: &impl Print) {
    let _ = rt.println("usage: pack IMAGE OUT TYPE START MODEL VERSION NAME DATE");
    let _ = rt.println(
        "TYPE is 1, 2 or 3; START is where the image starts in the block, 208 or more",
    );
}

// Reads the image, if it is not too large, and packs it. An image that is too large is an answer in this program's own words, on standard
// output; why the system reads none goes to standard error.
fn pack_file(rt: &(impl Files + Print + AllocGlobal), err: &impl Print, wish: Wish<'_>) {
    match console::read_file(rt, wish.image, console::FLASH) {
        Ok(image) => pack_image(rt, err, wish, &image),
        Err(FileError::Larger) => {
            let name = Text(wish.image);
            let _ = println!(rt; "{name}: larger than 262,144 bytes, more than any image has");
        }
        Err(why) => console::fail(err, wish.image, &why),
    }
}

// Writes the block under its name, and says what it holds.
fn pack_image(
    rt: &(impl Files + Print + AllocGlobal),
    err: &impl Print,
    wish: Wish<'_>,
    image: &[u8],
) {
    match block_of(rt.alloc(), wish, image) {
        Ok(block) if wish.out.len() <= console::PATH => keep(rt, err, wish.out, &block),
        Ok(_) | Err(Unpacked::NoNumbers) => usage(rt),
        Err(Unpacked::Refused(refusal)) => {
            let _ = rt.println(Refused(refusal));
        }
        Err(Unpacked::NoMemory) => console::fail(err, b"pack", &AllocError),
    }
}

fn block_of(alloc: Global, wish: Wish<'_>, image: &[u8]) -> Result<Vec<u8>, Unpacked> {
    let numbers = numbers_of(wish).ok_or(Unpacked::NoNumbers)?;
    let mut block = vec![in alloc; 0u8; console::FILE]?;
    let n = ubf::write(
        numbers,
        wish.model,
        wish.version,
        wish.name,
        wish.date,
        image,
        &mut block,
    )?;
    block.truncate(n);
    Ok(block)
}

// Type and start, and the address that goes with the type.
fn numbers_of(wish: Wish<'_>) -> Option<Numbers> {
    let number = u16::try_from(console::number_of(wish.kind)?).ok()?;
    let start = u32::try_from(console::number_of(wish.start)?).ok()?;
    Some(Numbers {
        number,
        address: address_of(number),
        start,
    })
}

// The address of a type; a type that is not known has none, and the writer refuses it.
fn address_of(number: u16) -> u32 {
    kinds::kind_of(number).map_or(0, kinds::base_of)
}

fn keep(rt: &(impl Files + Print + AllocGlobal), err: &impl Print, path: &[u8], block: &[u8]) {
    match console::write_file(rt, path, block) {
        Ok(()) => {
            let name = Text(path);
            let count = block.len();
            let _ = print!(rt; "{name}: {count} bytes, ");
            show(rt, ubf::read(block));
        }
        Err(why) => why.tell(err, path),
    }
}

fn show(rt: &impl Print, found: Result<Block, Refusal>) {
    match found {
        Err(refusal) => {
            let _ = rt.println(Refused(refusal));
        }
        Ok(block) => {
            let placed = Placed(block);
            let check = Word(block.check);
            let _ = println!(rt; "{placed}, check {check}");
        }
    }
}

// Lists the blocks of a UBF file: a line a block; at a faulty one its place, the refusal number and its words.
#![tactic(auto)]

use console::{FileError, Placed, Refused, Text, Word};
use refusals::Refusal;
use std::rt::Files;
use ubf::{Block, Nth};

// Its own name and the file, and one more, which would be too many.
const WORDS: usize = 3;

// Each program has such a main: a common one would be a public call that only runs what it is handed, of which no contract could say
// anything.
fn main(rt: HostRuntime) {
    let err = rt.stderr();
    match console::arguments(&rt, WORDS) {
        Ok(words) => blocks(&rt, &err, &words),
        Err(error) => console::fail(&err, b"blocks", &error),
    }
}

// Here and below a line that can't be written is let be, and the next one is tried.
fn blocks(rt: &(impl Files + Print + AllocGlobal), err: &impl Print, words: &[Vec<u8>]) {
    match words {
        [_, path] if path.len() <= console::PATH => list_file(rt, err, path),
        _ => {
            let _ = rt.println("usage: blocks FILE");
        }
    }
}

// Reads the whole file, if it is not too large, and lists it. A file that is too large is an answer in this program's own words, on
// standard output; why the system reads none goes to standard error.
fn list_file(rt: &(impl Files + Print + AllocGlobal), err: &impl Print, path: &[u8]) {
    match console::read_file(rt, path, console::FILE) {
        Ok(file) => list(rt, &file),
        Err(FileError::Larger) => {
            let name = Text(path);
            let _ = println!(rt;
                "{name}: larger than 524,288 bytes, the largest file that is taken"
            );
        }
        Err(why) => console::fail(err, path, &why),
    }
}

// A line a block, and how the walk ends. No file has more blocks than bytes.
fn list(rt: &impl Print, file: &[u8]) {
    for n in 0..=file.len() {
        match ubf::block_at(file, n) {
            Nth::Found { block, place } => show_block(rt, n, block, octets::behind(file, place)),
            Nth::Past { count } => {
                let _ = println!(rt; "{count} good, the file is whole");
                return;
            }
            Nth::Refused {
                refusal,
                place,
                count,
            } => return show_fault(rt, refusal, place, count),
        }
    }
}

fn show_block(rt: &impl Print, n: usize, block: Block, bytes: &[u8]) {
    // People count from 1.
    let ordinal = n.wrapping_add(1);
    let placed = Placed(block);
    let model = Text(ubf::model(bytes));
    let version = Text(ubf::version(bytes));
    let name = Text(ubf::file_name(bytes));
    let date = Text(ubf::date(bytes));
    let check = Word(block.check);
    let _ = println!(rt;
        "block {ordinal}: {placed}, model {model}, version {version}, file {name}, date {date}, check {check}"
    );
}

fn show_fault(rt: &impl Print, refusal: Refusal, place: usize, count: usize) {
    let ordinal = count.wrapping_add(1);
    let refused = Refused(refusal);
    let _ = println!(rt; "block {ordinal}: {refused}, at byte {place} of the file");
    let _ = println!(rt; "{count} good before it");
}

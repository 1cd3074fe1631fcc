// Loads a UBF file over a simulated line with noise, and judges the flash after each block.
#![tactic(auto)]

mod ending;
mod verdict;

use console::{FileError, Placed, Text};
use lanes::Noise;
use posts::{Ending, Post};
use std::rt::Files;
use ubf::{Block, Nth};
use verdict::Judged;

// What a file is loaded into: the flash, the module before it and the noise on its line; what is said goes to rt.
#[derive(Drop)]
struct Desk<'a, P: Print> {
    rt: &'a P,
    // A flash has one size, so an array says it; so does the copy from before.
    flash: [u8; console::FLASH],
    post: Post,
    noise: Noise,
}

// Its own name and three more, and one that would be too many.
const WORDS: usize = 5;

// Each program has such a main: a common one would be a public call that only runs what it is handed, of which no contract could say
// anything.
fn main(rt: HostRuntime) {
    let err = rt.stderr();
    match console::arguments(&rt, WORDS) {
        Ok(words) => start(&rt, &err, &words),
        Err(error) => console::fail(&err, b"desk", &error),
    }
}

fn start(rt: &(impl Files + Print + AllocGlobal), err: &impl Print, words: &[Vec<u8>]) {
    if let [_, path, seed, rate] = words
        && let Some(noise) = noise_of(seed, rate)
    {
        load_file(rt, err, console::openable(path), noise);
        return;
    }
    let _ = println!(rt;
        "usage: desk FILE.ubf SEED RATE\n\
         SEED is a number; of 100,000 bytes on the line about RATE are disturbed, 0 to 100000"
    );
}

fn noise_of(seed: &[u8], rate: &[u8]) -> Option<Noise> {
    let seed = console::number_of(seed)?;
    let rate = console::number_of(rate)?;
    if rate > 100000 {
        return None;
    }
    Some(Noise::sown(seed, rate))
}

// Reads the whole file, if it is not too large, and loads it. A file that is too large is an answer in this program's own words, on
// standard output; why the system reads none goes to standard error.
fn load_file(rt: &(impl Files + Print + AllocGlobal), err: &impl Print, path: &[u8], noise: Noise) {
    match console::read_file(rt, path, console::FILE) {
        Ok(file) => load_blocks(rt, &file, noise),
        Err(FileError::Larger) => {
            let name = Text(path);
            let _ = println!(rt;
                "{name}: larger than 524,288 bytes, the largest file that is taken"
            );
        }
        Err(why) => console::fail(err, path, &why),
    }
}

// A file with a faulty block is not begun with.
fn load_blocks(rt: &impl Print, file: &[u8], noise: Noise) {
    match ubf::block_at(file, file.len()) {
        Nth::Past { count } => load_all(rt, file, count, noise),
        Nth::Refused { refusal, place, .. } => verdict::refused(rt, refusal, place),
        Nth::Found { .. } => (),
    }
}

// Each block by a session of its own, over one flash, which begins all FF, as an erased one does. A block that is not done is the last one.
fn load_all(rt: &impl Print, file: &[u8], count: usize, noise: Noise) {
    let mut desk = Desk {
        rt,
        flash: [0xFF; console::FLASH],
        post: Post::waiting(),
        noise,
    };
    let (done, is_right) = (0..count)
        .map_while(|n| desk.load_nth(file, n))
        .fold((0usize, true), |(done, is_right), holds| {
            (done.wrapping_add(1), is_right && holds)
        });
    verdict::sum_up(rt, done, count, is_right);
}

impl<P: Print> Desk<'_, P> {
    // Answers whether the flash is right, if the load is done.
    fn load_nth(&mut self, file: &[u8], n: usize) -> Option<bool> {
        match ubf::block_at(file, n) {
            Nth::Found { block, place } => {
                self.show_block(n, block);
                self.load_block(block, octets::behind(file, place))
            }
            Nth::Past { .. } | Nth::Refused { .. } => None,
        }
    }

    // People count from 1.
    fn show_block(&self, n: usize, block: Block) {
        let ordinal = n.wrapping_add(1);
        let placed = Placed(block);
        let _ = println!(self.rt; "block {ordinal}: {placed}");
    }

    // Loads a block, and judges the flash against the image and against a copy from before.
    fn load_block(&mut self, block: Block, bytes: &[u8]) -> Option<bool> {
        let rt = self.rt;
        let before = self.flash;
        let image = ubf::image(bytes, block);
        let met = meeting::load(
            &mut self.post,
            &mut self.noise,
            block.kind,
            image,
            &mut self.flash,
        );
        let judged = Judged {
            base: kinds::base_of(block.kind) as usize,
            image,
            flash: &self.flash,
            before: &before,
        };
        let is_right = judged.show(rt, &met);
        (met.ending == Ending::Done).then_some(is_right)
    }
}

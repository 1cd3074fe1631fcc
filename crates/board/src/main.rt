// A module on a line, over a flash image file.
#![tactic(auto)]

mod keep;
mod reply;
mod say;
mod station;

use crate::station::Station;
use cable::Cable;
use console::FileError;
use std::rt::Files;

// What the arguments ask for.
#[derive(Clone, Copy)]
struct Wish<'a> {
    flash: &'a [u8],
    line: &'a [u8],
    opened: bool,
}

// Its own name and three more, and one that would be too many.
const WORDS: usize = 5;

// Each program has such a main: a common one would be a public call that only runs what it is handed, of which no contract could say
// anything.
fn main(rt: HostRuntime) {
    let err = rt.stderr();
    match console::arguments(&rt, WORDS) {
        Ok(words) => match wish_of(&words) {
            Some(wish) => serve(&rt, &err, wish),
            None => say::usage(&err),
        },
        Err(error) => console::fail(&err, b"board", &error),
    }
}

// One to three arguments, the third of them the word open. Without a second the line is standard input and output.
fn wish_of(words: &[Vec<u8>]) -> Option<Wish<'_>> {
    let (flash, line, opened) = match words {
        [_, flash] => (flash.as_slice(), b"-".as_slice(), false),
        [_, flash, line] => (flash.as_slice(), line.as_slice(), false),
        [_, flash, line, word] if word.as_slice() == b"open".as_slice() => {
            (flash.as_slice(), line.as_slice(), true)
        }
        _ => return None,
    };
    (flash.len() <= console::PATH).then_some(Wish {
        flash,
        line: console::openable(line),
        opened,
    })
}

fn serve<R: Files + Input + Print + AllocGlobal>(rt: &R, err: &impl Print, wish: Wish<'_>) {
    let cable = match cable::open(rt, wish.line) {
        Ok(cable) => cable,
        Err(why) => return console::fail(err, wish.line, &why),
    };
    match serve_file(rt, err, wish, cable) {
        Ok(()) => (),
        // In the board's own words: of a flash, with its size and no path.
        Err(FileError::Larger) => say::too_large(err),
        Err(why) => console::fail(err, wish.flash, &why),
    }
}

// Reads the flash, and keeps its file open to be written.
fn serve_file<R: Files + Input + Print + AllocGlobal>(
    rt: &R,
    err: &impl Print,
    wish: Wish<'_>,
    cable: Cable<R::File>,
) -> Result<(), FileError> {
    let flash = console::read_file(rt, wish.flash, console::FLASH)?;
    if flash.is_empty() {
        say::empty(err);
        return Ok(());
    }
    let file = console::open_update(rt, wish.flash)?;
    Station::new(rt, err, cable, file, flash, wish.opened).serve();
    Ok(())
}

// A line that a program speaks on: a terminal, or standard input and output. No contract can speak of what an operating system reads
// or writes; these say what the answers may be, and what the calls do is tested.
#![tactic(auto)]

ghost use Rattle.std.specs.Prelude.{length, ◌≡◌, ◌≤◌, IfOk};
ghost use Rattle.cable.specs.Cable.{Opens, Comes, is_terminal_of};

use console::FileError;
use std::io;
use std::io::{Read, Write};
use std::rt::Files;

// Where bytes come from and go to: standard input and output, or the file of a terminal.
#[derive(Drop)]
pub enum Cable<F> {
    Standard,
    Terminal(F),
}

impl<F> Cable<F> {
    // Whether an empty read is silence: on a terminal it is 100 ms, elsewhere the end.
    pub fn is_terminal(&self) -> bool
        ensures { result ≡ is_terminal_of self.now }
    {
        matches!(self, Cable::Terminal(_))
    }
}

// What a read brought: so many bytes at the front of the buffer, 100 ms without a byte, or the end of the input.
#[derive(Clone, Copy, Debug, PartialEq, Eq)]
pub enum Came {
    Bytes(usize),
    Silence,
    End,
}

pub const SILENCE: u32 = 100;

// Opens a terminal by its path; a dash is standard input and output.
#[tactic(auto, using(octets::proofs::Words::same_pointwise))]
pub fn open<R: Files>(rt: &R, path: &[u8]) -> Result<Cable<R::File>, FileError>
    ensures { Opens result path.now }
{
    if path == b"-".as_slice() {
        return Ok(Cable::Standard);
    }
    Ok(Cable::Terminal(console::open_update(rt, path)?))
}

// Sends all bytes, or answers why not.
pub fn send<F: Write>(rt: &impl Print, cable: &mut Cable<F>, bytes: &[u8]) -> io::Result<()> {
    match cable {
        Cable::Terminal(file) => file.write_all(bytes),
        Cable::Standard => rt.write_all(bytes),
    }
}

// Reads once.
pub fn listen<F: Read>(rt: &impl Input, cable: &mut Cable<F>, buffer: &mut [u8]) -> io::Result<Came>
    ensures { Comes result (is_terminal_of cable.old) (length buffer.old) }
{
    let is_terminal = cable.is_terminal();
    let n = read_once(rt, cable, buffer)?;
    if n > 0 {
        return Ok(Came::Bytes(n));
    }
    Ok(if is_terminal {
        Came::Silence
    } else {
        Came::End
    })
}

fn read_once<F: Read>(rt: &impl Input, cable: &mut Cable<F>, buffer: &mut [u8]) -> io::Result<usize>
    ensures { IfOk result (λ n. n ≤ length buffer.old) }
{
    match cable {
        Cable::Terminal(file) => file.read(buffer),
        Cable::Standard => rt.reader().read(buffer),
    }
}

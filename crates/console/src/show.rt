// What programs print: each is a Display, so that it stands in a format among words and numbers.
use refusals::Refusal;
use std::fmt;
use ubf_model::Block;

// A line that says what failed, and why.
pub fn fail(to: &impl Print, what: &[u8], why: &(impl fmt::Display + Drop)) {
    let _ = to.write_all(what);
    let _ = println!(to; ": {why}");
}

// Bytes in capital hex digits, as hex_digits puts them.
#[derive(Clone, Copy)]
pub struct Hex<'a>(pub &'a [u8]);

impl fmt::Display for Hex<'_> {
    fn fmt<W: fmt::Write>(&self, f: &mut fmt::Formatter<W>) -> fmt::Result {
        // A fixed room for each piece: a Display is given no allocator.
        let mut room = [0u8; 64];
        for piece in self.0.chunks(32) {
            let n = hex_digits::show(piece, &mut room);
            for &digit in &room[..n] {
                f.write_char(char::from(digit))?;
            }
        }
        Ok(())
    }
}

// A number of four bytes in hex, high byte first, as people write it.
#[derive(Clone, Copy)]
pub struct Word(pub u32);

impl fmt::Display for Word {
    fn fmt<W: fmt::Write>(&self, f: &mut fmt::Formatter<W>) -> fmt::Result {
        write!(f, "0x{}", Hex(&u32::to_be_bytes(self.0)))
    }
}

// A refusal's number and its words.
#[derive(Clone, Copy)]
pub struct Refused(pub Refusal);

impl fmt::Display for Refused {
    fn fmt<W: fmt::Write>(&self, f: &mut fmt::Formatter<W>) -> fmt::Result {
        write!(f, "refused {}, {}", self.0.number(), self.0)
    }
}

// The module's byte that is passed on beside a refusal: beside 21 an ACK, beside 22 a State.
#[derive(Clone, Copy)]
pub struct Passed {
    pub refusal: Refusal,
    pub passed: u8,
}

impl fmt::Display for Passed {
    fn fmt<W: fmt::Write>(&self, f: &mut fmt::Formatter<W>) -> fmt::Result {
        let what = match self.refusal {
            Refusal::ModuleRefused => "ACK",
            _ => "State",
        };
        let refused = Refused(self.refusal);
        write!(f, "{refused}, {what} {} passed on", Hex(&[self.passed]))
    }
}

// Where an image goes and where it stands in its block.
#[derive(Clone, Copy)]
pub struct Placed(pub Block);

impl fmt::Display for Placed {
    fn fmt<W: fmt::Write>(&self, f: &mut fmt::Formatter<W>) -> fmt::Result {
        let Block {
            kind,
            extent,
            start,
            ..
        } = self.0;
        let base = Word(kinds::base_of(kind));
        write!(f, "{kind}, address {base}, length {extent}, start {start}")
    }
}

// Bytes in hex with a space before each, filled up with spaces to so many places.
#[derive(Clone, Copy)]
pub struct Row<'a> {
    pub bytes: &'a [u8],
    pub places: usize,
}

impl fmt::Display for Row<'_> {
    fn fmt<W: fmt::Write>(&self, f: &mut fmt::Formatter<W>) -> fmt::Result {
        for &byte in self.bytes {
            write!(f, " {}", Hex(&[byte]))?;
        }
        for _ in self.bytes.len()..self.places {
            f.write_str("   ")?;
        }
        Ok(())
    }
}

// A text up to its first zero. A byte that no screen should get is shown as a dot.
#[derive(Clone, Copy)]
pub struct Text<'a>(pub &'a [u8]);

impl fmt::Display for Text<'_> {
    fn fmt<W: fmt::Write>(&self, f: &mut fmt::Formatter<W>) -> fmt::Result {
        for &byte in self.0.iter().take_while(|&&byte| byte != 0) {
            f.write_char(shown(byte))?;
        }
        Ok(())
    }
}

fn shown(byte: u8) -> char {
    match byte {
        b' '..0x7F => char::from(byte),
        _ => '.',
    }
}

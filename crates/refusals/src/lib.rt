// The refusals of document 01's table: each by name, its number, and the words that a program prints beside the number.
#![tactic(auto)]

ghost use Rattle.std.specs.Prelude.{◌≡◌};
ghost use Rattle.octets.specs.Octets.{Front};
ghost use Rattle.refusals.specs.Refusals.{refusal_number, say_of, words_of, Numbered};

use std::error::Error;
use std::fmt;

#[derive(Clone, Copy, Debug, PartialEq, Eq)]
pub enum Refusal {
    PayloadTooLong,
    NoRoom,
    WrongLength,
    FileEnds,
    WrongMark,
    WrongType,
    WrongStart,
    WrongImageLength,
    NotZeroFilled,
    WrongImageCheck,
    WrongPieces,
    NoAnswer,
    ModuleRefused,
    BadNotice,
}

// A number that the table does not have.
#[derive(Clone, Copy, Debug, PartialEq, Eq)]
pub struct UnknownNumber(pub u8);

impl Refusal {
    // The number of a refusal, as C and people see it.
    pub fn number(self) -> u8
        ensures { result ≡ refusal_number self }
    {
        u8::from(self)
    }

    // The words beside its number.
    #[tactic(auto, unfolding(crate::specs::Refusals::words_of))]
    pub fn words(self) -> &'static str
        ensures { result.now ≡ words_of (refusal_number self) }
    {
        match self {
            Refusal::PayloadTooLong => "payload over 1,030 bytes",
            Refusal::NoRoom => "output too small",
            Refusal::WrongLength => "flash or image of the wrong length",
            Refusal::FileEnds => "file ends inside a block",
            Refusal::WrongMark => "mark is not AT",
            Refusal::WrongType => "type or address not known",
            Refusal::WrongStart => "image starts inside the header",
            Refusal::WrongImageLength => "image length not allowed",
            Refusal::NotZeroFilled => "gap or text not filled with zeros",
            Refusal::WrongImageCheck => "image check differs",
            Refusal::WrongPieces => "piece size 0 or too many pieces",
            Refusal::NoAnswer => "no fitting answer after 3 repeats",
            Refusal::ModuleRefused => "the module refused",
            Refusal::BadNotice => "the module reports a failure",
        }
    }
}

impl From<Refusal> for u8 {
    ghost from_gives = { λ refusal number. number ≡ refusal_number refusal };

    fn from(refusal: Refusal) -> u8 {
        match refusal {
            Refusal::PayloadTooLong => 1,
            Refusal::NoRoom => 2,
            Refusal::WrongLength => 3,
            Refusal::FileEnds => 4,
            Refusal::WrongMark => 5,
            Refusal::WrongType => 6,
            Refusal::WrongStart => 7,
            Refusal::WrongImageLength => 8,
            Refusal::NotZeroFilled => 9,
            Refusal::WrongImageCheck => 10,
            Refusal::WrongPieces => 11,
            Refusal::NoAnswer => 20,
            Refusal::ModuleRefused => 21,
            Refusal::BadNotice => 22,
        }
    }
}

impl TryFrom<u8> for Refusal {
    type Error = UnknownNumber;

    ghost try_from_gives = { Numbered };

    #[tactic(auto, unfolding(crate::specs::Refusals::words_of))]
    fn try_from(number: u8) -> Result<Self, UnknownNumber> {
        match number {
            1 => Ok(Refusal::PayloadTooLong),
            2 => Ok(Refusal::NoRoom),
            3 => Ok(Refusal::WrongLength),
            4 => Ok(Refusal::FileEnds),
            5 => Ok(Refusal::WrongMark),
            6 => Ok(Refusal::WrongType),
            7 => Ok(Refusal::WrongStart),
            8 => Ok(Refusal::WrongImageLength),
            9 => Ok(Refusal::NotZeroFilled),
            10 => Ok(Refusal::WrongImageCheck),
            11 => Ok(Refusal::WrongPieces),
            20 => Ok(Refusal::NoAnswer),
            21 => Ok(Refusal::ModuleRefused),
            22 => Ok(Refusal::BadNotice),
            _ => Err(UnknownNumber(number)),
        }
    }
}

impl fmt::Display for Refusal {
    fn fmt<W: fmt::Write>(&self, f: &mut fmt::Formatter<W>) -> fmt::Result {
        f.write_str(self.words())
    }
}

impl fmt::Display for UnknownNumber {
    fn fmt<W: fmt::Write>(&self, f: &mut fmt::Formatter<W>) -> fmt::Result {
        f.write_str("unknown refusal number")
    }
}

impl Error for Refusal {}

impl Error for UnknownNumber {}

// Puts the words of a number at the front of the output, as much of them as fits, and answers how many bytes that is. C asks by any number
// (zrn_words), so it is no `Refusal`.
pub fn words(number: u8, out: &mut [u8]) -> usize
    ensures said { record { count = result; output = out.new } ≡ say_of (words_of number) out.old }
    ensures within { Front result out.new }
{
    match Refusal::try_from(number) {
        Ok(refusal) => say(refusal.words().as_bytes(), out),
        Err(_) => say(b"unknown refusal number", out),
    }
}

fn say(text: &[u8], out: &mut [u8]) -> usize
    ensures said { record { count = result; output = out.new } ≡ say_of text.now out.old }
    ensures within { Front result out.new }
{
    octets::copy(text, out, 0);
    text.len().min(out.len())
}

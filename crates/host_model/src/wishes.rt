// What a load is opened with, by number: the start text and the same version.
ghost use Rattle.std.specs.Prelude.{◌≡◌};
ghost use Rattle.host_model.specs.Wishes.{number_of_start, number_of_same, StartNumbered, SameNumbered};

use crate::plan::{Same, Start};
use std::error::Error;
use std::fmt;

// A number that no start has.
#[derive(Clone, Copy, Debug, PartialEq, Eq)]
pub struct UnknownStart(pub u8);

// A number that says neither to go on nor to stop.
#[derive(Clone, Copy, Debug, PartialEq, Eq)]
pub struct UnknownSame(pub u8);

impl From<Start> for u8 {
    ghost from_gives = { λ start number. number ≡ number_of_start start };

    fn from(start: Start) -> u8 {
        match start {
            Start::AtOnce => 0,
            Start::WithText => 1,
        }
    }
}

impl TryFrom<u8> for Start {
    type Error = UnknownStart;

    ghost try_from_gives = { StartNumbered };

    fn try_from(number: u8) -> Result<Self, UnknownStart> {
        match number {
            0 => Ok(Start::AtOnce),
            1 => Ok(Start::WithText),
            _ => Err(UnknownStart(number)),
        }
    }
}

impl From<Same> for u8 {
    ghost from_gives = { λ same number. number ≡ number_of_same same };

    fn from(same: Same) -> u8 {
        match same {
            Same::Stop => 0,
            Same::GoOn => 1,
        }
    }
}

impl TryFrom<u8> for Same {
    type Error = UnknownSame;

    ghost try_from_gives = { SameNumbered };

    fn try_from(number: u8) -> Result<Self, UnknownSame> {
        match number {
            0 => Ok(Same::Stop),
            1 => Ok(Same::GoOn),
            _ => Err(UnknownSame(number)),
        }
    }
}

impl fmt::Display for UnknownStart {
    fn fmt<W: fmt::Write>(&self, f: &mut fmt::Formatter<W>) -> fmt::Result {
        f.write_str("unknown start number")
    }
}

impl Error for UnknownStart {}

impl fmt::Display for UnknownSame {
    fn fmt<W: fmt::Write>(&self, f: &mut fmt::Formatter<W>) -> fmt::Result {
        f.write_str("unknown number of what the same version does")
    }
}

impl Error for UnknownSame {}

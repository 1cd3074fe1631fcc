// The five rates, their numbers, and each in bits a second.
ghost use Rattle.std.specs.Prelude.{◌≡◌};
ghost use Rattle.host_model.specs.Stages.{number_of_rate};
ghost use Rattle.host_model.specs.Rates.{Numbered};

use crate::plan::Rate;
use std::error::Error;
use std::fmt;

// A number that no rate has.
#[derive(Clone, Copy, Debug, PartialEq, Eq)]
pub struct UnknownRate(pub u8);

impl From<Rate> for u8 {
    ghost from_gives = { λ rate number. number ≡ number_of_rate rate };

    fn from(rate: Rate) -> u8 {
        match rate {
            Rate::R9600 => 1,
            Rate::R19200 => 2,
            Rate::R38400 => 3,
            Rate::R57600 => 4,
            Rate::R115200 => 5,
        }
    }
}

impl TryFrom<u8> for Rate {
    type Error = UnknownRate;

    ghost try_from_gives = { Numbered };

    fn try_from(number: u8) -> Result<Self, UnknownRate> {
        match number {
            1 => Ok(Rate::R9600),
            2 => Ok(Rate::R19200),
            3 => Ok(Rate::R38400),
            4 => Ok(Rate::R57600),
            5 => Ok(Rate::R115200),
            _ => Err(UnknownRate(number)),
        }
    }
}

// In bits a second.
impl fmt::Display for Rate {
    fn fmt<W: fmt::Write>(&self, f: &mut fmt::Formatter<W>) -> fmt::Result {
        f.write_str(match self {
            Rate::R9600 => "9600",
            Rate::R19200 => "19200",
            Rate::R38400 => "38400",
            Rate::R57600 => "57600",
            Rate::R115200 => "115200",
        })
    }
}

impl fmt::Display for UnknownRate {
    fn fmt<W: fmt::Write>(&self, f: &mut fmt::Formatter<W>) -> fmt::Result {
        f.write_str("unknown rate number")
    }
}

impl Error for UnknownRate {}

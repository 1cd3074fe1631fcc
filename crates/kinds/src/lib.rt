// The three types of image: their numbers, flash addresses, command tokens, and what fits where. No other crate knows them.
#![tactic(auto)]

ghost use Rattle.std.specs.Prelude.{◌≡◌};
ghost use Rattle.kinds.specs.Kinds.{kind_of, number_of, base_of, token_of, fits_file, fits_flash, Typed};

use std::error::Error;
use std::fmt;

#[derive(Clone, Copy, Debug, PartialEq, Eq)]
pub enum Kind {
    Navigation,
    Upgrade,
    Parameters,
}

// The longest image.
const IMAGE_MOST: usize = 262143;

// A kind in words, for people.
impl fmt::Display for Kind {
    fn fmt<W: fmt::Write>(&self, f: &mut fmt::Formatter<W>) -> fmt::Result {
        f.write_str(match self {
            Kind::Navigation => "navigation code",
            Kind::Upgrade => "upgrade code",
            Kind::Parameters => "working parameters",
        })
    }
}

// A type number that no kind has.
#[derive(Clone, Copy, Debug, PartialEq, Eq)]
pub struct UnknownType(pub u16);

// The type number of a kind, as files and commands carry it.
impl From<Kind> for u16 {
    ghost from_gives = { λ kind number. number ≡ number_of kind };

    fn from(kind: Kind) -> u16 {
        match kind {
            Kind::Navigation => 1,
            Kind::Upgrade => 2,
            Kind::Parameters => 3,
        }
    }
}

impl TryFrom<u16> for Kind {
    type Error = UnknownType;

    ghost try_from_gives = { Typed };

    #[tactic(auto, unfolding(crate::specs::Kinds::kind_of))]
    fn try_from(number: u16) -> Result<Self, UnknownType> {
        match number {
            1 => Ok(Kind::Navigation),
            2 => Ok(Kind::Upgrade),
            3 => Ok(Kind::Parameters),
            _ => Err(UnknownType(number)),
        }
    }
}

impl fmt::Display for UnknownType {
    fn fmt<W: fmt::Write>(&self, f: &mut fmt::Formatter<W>) -> fmt::Result {
        f.write_str("unknown type number")
    }
}

impl Error for UnknownType {}

// The kind of a type number, if there is one. This and number_of are calls that PROMISES names, over TryFrom and From.
pub fn kind_of(number: u16) -> Option<Kind>
    ensures { result ≡ kind_of number }
{
    Kind::try_from(number).ok()
}

// The type number of a kind.
pub fn number_of(kind: Kind) -> u16
    ensures { result ≡ number_of kind }
{
    u16::from(kind)
}

// Where the image of a kind begins in the flash; a file carries this address.
pub fn base_of(kind: Kind) -> u32
    ensures { result ≡ base_of kind }
{
    match kind {
        Kind::Navigation => 0x8000,
        Kind::Upgrade => 0x0000,
        Kind::Parameters => 0x3E000,
    }
}

// The address that the parameter command carries; for two kinds it is only a token.
pub fn token_of(kind: Kind) -> u32
    ensures { result ≡ token_of kind }
{
    match kind {
        Kind::Navigation => 0,
        Kind::Upgrade => 0,
        Kind::Parameters => 0x3E000,
    }
}

// Whether a file may carry an image of this length for the kind.
#[tactic(auto, unfolding(crate::specs::Kinds::fits_file))]
pub fn fits_file(kind: Kind, extent: usize) -> bool
    ensures { result ≡ fits_file kind extent }
{
    1 <= extent && extent <= IMAGE_MOST && extent % 4 == 0
}

// Whether an image of this length, laid at the kind's address, lies within a flash.
#[tactic(auto, unfolding(crate::specs::Kinds::fits_flash))]
pub fn fits_flash(kind: Kind, extent: usize, flash: usize) -> bool
    ensures { result ≡ fits_flash kind extent flash }
{
    1 <= extent && extent <= IMAGE_MOST && base_of(kind) as usize + extent <= flash
}

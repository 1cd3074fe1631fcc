// The marks, and how a content byte that looks like one is escaped.
ghost use Rattle.std.specs.Prelude.{◌≡◌};
ghost use Rattle.wire.specs.Escape.{is_mark, second_of, may_follow, original_of};

pub const HEAD: u8 = 0xDB;

pub const ESCAPE: u8 = 0xDC;

pub const TAIL: u8 = 0xDE;

// The marked byte has bit 4 inverted behind the escape.
const MASK: u8 = 0x10;

// Whether a content byte has to be escaped.
#[tactic(auto, unfolding(crate::specs::Escape::is_mark))]
pub(crate) fn is_mark(byte: u8) -> bool
    ensures { result ≡ is_mark byte }
{
    matches!(byte, HEAD | ESCAPE | TAIL)
}

// What follows the escape on the wire in place of a mark.
#[tactic(auto, unfolding(crate::specs::Escape::second_of))]
pub(crate) fn second(byte: u8) -> u8
    ensures { result ≡ second_of byte }
{
    byte ^ MASK
}

// Whether a byte may follow the escape.
#[tactic(auto, unfolding(crate::specs::Escape::may_follow))]
pub fn may_follow(byte: u8) -> bool
    ensures { result ≡ may_follow byte }
{
    matches!(byte, 0xCB | 0xCC | 0xCE)
}

// The content byte that the escape and this byte stand for; the tail where it may not follow.
#[tactic(auto, unfolding(crate::specs::Escape::original_of))]
pub fn original(byte: u8) -> u8
    ensures { result ≡ original_of byte }
{
    if may_follow(byte) { byte ^ MASK } else { TAIL }
}

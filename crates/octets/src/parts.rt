// Parts of a slice, and texts that zeros fill up.
ghost use Rattle.std.specs.Prelude.{◌≡◌, drop};
ghost use Rattle.octets.specs.Octets.{part_of, text_length, zero_filled};

use crate::runs::zeros;

// The n bytes from a place on, or as many of them as there are.
#[tactic(auto, unfolding(crate::specs::Octets::part_of))]
pub fn part(s: &[u8], at: usize, n: usize) -> &[u8]
    ensures { result.now ≡ part_of s.now at n }
{
    let rest = behind(s, at);
    &rest[..n.min(rest.len())]
}

// All bytes behind the first n.
pub fn behind(s: &[u8], n: usize) -> &[u8]
    ensures { result.now ≡ drop n s.now }
{
    &s[n.min(s.len())..]
}

// How many bytes stand before the first zero.
pub fn text_length(s: &[u8]) -> usize
    ensures { result ≡ text_length s.now }
{
    s.iter().position(|&byte| byte == 0).unwrap_or(s.len())
}

// Whether nothing but zero follows a zero.
#[tactic(auto, unfolding(crate::specs::Octets::zero_filled))]
pub fn zero_filled(s: &[u8]) -> bool
    ensures { result ≡ zero_filled s.now }
{
    zeros(behind(s, text_length(s)))
}

// Numbers of two and four bytes, low byte first. A call for each size over one generic: no trait of std has from_le_bytes and to_le_bytes.
ghost use Rattle.std.specs.Prelude.{◌≡◌, get_or, replicate};
ghost use Rattle.octets.specs.Octets.{number_at, part_of, spelled, laid};

use crate::parts::part;
use crate::runs::copy;

// The byte at a place, or 0 past the end.
pub fn byte_at(s: &[u8], at: usize) -> u8
    ensures { result ≡ get_or s.now at 0 }
{
    s.get(at).copied().unwrap_or(0)
}

// The N bytes from a place on; those past the end read as zero.
pub fn bytes_at<const N: usize>(s: &[u8], at: usize) -> [u8; N]
    ensures { result ≡ laid (replicate N 0) 0 (part_of s.now at N) }
{
    let there = part(s, at, N);
    // Most reads find all N, and these need no copy of a length that is not known.
    if let Some(whole) = there.first_chunk::<N>() {
        return *whole;
    }
    let mut bytes = [0; N];
    copy(there, &mut bytes, 0);
    bytes
}

// The number in the two bytes from a place on.
#[tactic(auto, using(crate::proofs::Words::two_read))]
pub fn two_at(s: &[u8], at: usize) -> u16
    ensures { result ≡ number_at 2 s.now at }
{
    u16::from_le_bytes(bytes_at(s, at))
}

// The number in the four bytes from a place on.
#[tactic(auto, using(crate::proofs::Words::four_read))]
pub fn four_at(s: &[u8], at: usize) -> u32
    ensures { result ≡ number_at 4 s.now at }
{
    u32::from_le_bytes(bytes_at(s, at))
}

// Two bytes from a place on take the number; those past the end are left out.
#[tactic(auto, using(crate::proofs::Words::spelled_two))]
pub fn put_two(d: &mut [u8], at: usize, x: u16)
    ensures { d.new ≡ laid d.old at (spelled 2 x) }
{
    copy(&u16::to_le_bytes(x), d, at);
}

// Four bytes from a place on take the number; those past the end are left out.
#[tactic(auto, using(crate::proofs::Words::spelled_four))]
pub fn put_four(d: &mut [u8], at: usize, x: u32)
    ensures { d.new ≡ laid d.old at (spelled 4 x) }
{
    copy(&u32::to_le_bytes(x), d, at);
}

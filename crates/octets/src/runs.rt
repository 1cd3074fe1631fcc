// Whole runs of bytes: their xor, whether they are zeros, whether two are the same, a copy.
ghost use Rattle.std.specs.Prelude.{◌≡◌, min, replicate};
ghost use Rattle.octets.specs.Octets.{xor_of, xor_words, all_zero, same_bytes, laid};

use crate::numbers::four_at;

// The xor of all bytes, 0 for none.
#[tactic(auto, using(crate::proofs::Words::xor_folds))]
pub fn xor(s: &[u8]) -> u8
    ensures { result ≡ xor_of s.now }
{
    s.iter().fold(0, |sum, &byte| sum ^ byte)
}

// The xor of the words of four bytes, low byte first; a rest that is no word is left out.
pub fn xor_words(s: &[u8]) -> u32
    ensures { result ≡ xor_words s.now }
{
    s.chunks_exact(4)
        .fold(0, |sum, word| sum ^ four_at(word, 0))
}

// Whether every byte is zero.
pub fn zeros(s: &[u8]) -> bool
    ensures { result ≡ all_zero s.now }
{
    // A loop of its own: `all` takes two steps more for each byte, and a text's field is mostly zeros.
    for &byte in s {
        if byte != 0 {
            return false;
        }
    }
    true
}

// Whether two runs are the same, in length and byte for byte. No crate here calls it, as == says it; PROMISES names the
// call.
#[tactic(auto, using(crate::proofs::Words::same_pointwise))]
pub fn same(a: &[u8], b: &[u8]) -> bool
    ensures { result ≡ same_bytes a.now b.now }
{
    a == b
}

// s laid into d from a place on: as much of it as fits.
pub fn copy(s: &[u8], d: &mut [u8], at: usize)
    ensures { d.new ≡ laid d.old at s.now }
{
    if at < d.len() {
        let n = s.len().min(d.len() - at);
        // By index: copy_from_slice asks the C library for memmove, which the archive for C would newly need.
        for (i, &byte) in s[..n].iter().enumerate() {
            d[at + i] = byte;
        }
    }
}

// n times the same byte laid into d from a place on: as many as fit.
pub fn fill(d: &mut [u8], at: usize, n: usize, byte: u8)
    ensures { d.new ≡ laid d.old at (replicate n byte) }
{
    if at < d.len() {
        let n = n.min(d.len() - at);
        d[at..at + n].fill(byte);
    }
}

// The smaller of two numbers; it stays as `same` does.
pub fn least(a: usize, b: usize) -> usize
    ensures { result ≡ min a b }
{
    a.min(b)
}

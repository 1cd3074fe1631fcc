// A record: words of four bytes each, one behind the other at the front of a buffer.
ghost use Rattle.std.specs.Prelude.{◌≡◌, ◌*◌, ◌<◌, length, replicate};
ghost use Rattle.octets.specs.Octets.{number_at};
ghost use Rattle.flat.specs.Words.{low_half, high_half, recorded, spelled_all};

// Writes the words at the front of the buffer, or nothing where they have no room.
#[tactic(auto, using(crate::specs::WordsLaws::words_laid), unfolding(crate::specs::Words::recorded, crate::specs::Words::spelled_all, octets::specs::Octets::over))]
pub fn store(words: &[u32], state: &mut [u8])
    ensures { state.new ≡ recorded words.now state.old }
{
    if words.len() <= state.len() / 4 {
        // By index. Tried with chunks_exact_mut and zip: its contract does not say what the slice ends as.
        for (i, &word) in words.iter().enumerate() {
            octets::put_four(state, i * 4, word);
        }
    }
}

// The record of the words in N bytes, all zeros where they have no room. In as many bytes as they have it is the words alone.
#[tactic(auto, using(crate::specs::Found::spelled_alone))]
pub fn spelled<const N: usize>(words: &[u32]) -> [u8; N]
    ensures record { result ≡ recorded words.now (replicate N 0) }
    ensures alone { N ≡ 4 * length words.now → result ≡ spelled_all words.now }
{
    let mut bytes = [0; N];
    store(words, &mut bytes);
    bytes
}

// The number in the eight bytes from a place on; as with octets' two_at and four_at, no trait of std has from_le_bytes.
#[tactic(auto, using(octets::proofs::Words::eight_read))]
pub fn eight_at(s: &[u8], at: usize) -> usize
    ensures { result ≡ number_at 8 s.now at }
{
    usize::from_le_bytes(octets::bytes_at(s, at))
}

// The two words of a number of eight bytes; `as` takes only a number that fits.
pub fn low(x: usize) -> u32
    ensures { result ≡ low_half x }
{
    (x % 4294967296) as u32
}

pub fn high(x: usize) -> u32
    ensures { result ≡ high_half x }
{
    (x >> 32) as u32
}

// A word as a size, with its bound, which the sums of the calls for C need: usize takes no u32 by From.
pub fn wide(x: u32) -> usize
    ensures { (result ≡ x) × (result < 4294967296) }
{
    x as usize
}

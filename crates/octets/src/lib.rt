// Bytes in slices, for every layer above: numbers with the low byte first, xor, zero runs, equal
// runs, copies. Each call takes any slice and any place; a place past the end reads as zero and
// takes no byte.
#![tactic(auto)]

mod numbers;
mod parts;
mod runs;

pub use numbers::{byte_at, bytes_at, four_at, put_four, put_two, two_at};
pub use parts::{behind, part, text_length, zero_filled};
pub use runs::{copy, fill, least, same, xor, xor_words, zeros};

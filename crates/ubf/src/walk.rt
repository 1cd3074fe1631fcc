// The walk over the blocks of a file: it calls itself on the part that remains, which falls by a block each time.
// A loop would be no plainer: it needs an answer behind its last turn, which no file reaches.
ghost use Rattle.std.specs.Prelude.{◌≡◌, ◌+◌, ◌^◌, ◌≤◌, ◌<◌, length};
ghost use Rattle.ubf_model.specs.Walk.{block_at, nth_from};

use ubf_block::{read, size};
use ubf_model::Nth;

// The n-th block of a file.
pub fn block_at(file: &[u8], n: usize) -> Nth
    ensures { result ≡ block_at n file.now }
{
    nth_from(file, 0, n, 0)
}

#[tactic(auto, using(ubf_model::proofs::WalkLaws::nth_refused, ubf_model::proofs::WalkLaws::nth_here))]
fn nth_from(rest: &[u8], place: usize, n: usize, counted: usize) -> Nth
    requires { (place + length rest.now < 2 ^ 63) × (counted ≤ place) }
    ensures { result ≡ nth_from n counted place rest.now }
{
    match read(rest) {
        Err(refusal) => Nth::Refused {
            refusal,
            place,
            count: counted,
        },
        Ok(block) => {
            if n == 0 {
                return Nth::Found { block, place };
            }
            let taken = size(block);
            if rest.len() <= taken {
                return Nth::Past { count: counted + 1 };
            }
            nth_from(
                octets::behind(rest, taken),
                place + taken,
                n - 1,
                counted + 1,
            )
        }
    }
}

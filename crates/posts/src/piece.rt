// How large a piece a host should wish for at a rate: its packet is to leave the port in half the time for an answer.
ghost use Rattle.std.specs.Prelude.{◌≡◌};
ghost use Rattle.posts.specs.Piece.{in_half, piece_for};

// What a packet has on the wire beside its piece, where nothing is escaped.
const BESIDE: usize = 13;

// The piece for a line of so many bits a second: 1 to 1,024 bytes.
#[tactic(auto, unfolding(crate::specs::Piece::piece_for))]
pub fn piece_for(baud: u32) -> usize
    ensures { result ≡ piece_for baud }
{
    in_half(baud)
        .saturating_sub(BESIDE)
        .clamp(1, commands::LARGEST_PACKET)
}

// How many bytes such a line carries in half the time for an answer: 500 ms, ten bits a byte.
fn in_half(baud: u32) -> usize
    ensures { result ≡ in_half baud }
{
    baud as usize * 500 / 10000
}

// An image cut into pieces of one size: how many there are, and how long each is. Both ends of the line count by this.
#![tactic(auto)]

ghost use Rattle.std.specs.Prelude.{◌≡◌, ◌-◌};
ghost use Rattle.pieces.specs.Pieces.{count_of, size_at, piece_of};

// How many pieces of a size an image of a length is cut into; none where the size is 0.
#[tactic(auto, using(crate::specs::PiecesLaws::count_size_0, crate::specs::PiecesLaws::count_ceil))]
pub fn count(extent: usize, size: usize) -> usize
    ensures { result ≡ count_of extent size }
{
    if size == 0 { 0 } else { extent.div_ceil(size) }
}

// How long a piece is, by its number.
#[tactic(auto, using(crate::specs::PiecesLaws::last_offset), unfolding(crate::specs::Pieces::size_at))]
pub fn size_at(extent: usize, size: usize, number: usize) -> usize
    ensures { result ≡ size_at extent size number }
{
    let total = count(extent, size);
    if number == total {
        extent - before(total) * size
    } else {
        size
    }
}

// A piece of an image by its number, as a part of the image; empty behind the last one.
#[tactic(auto, unfolding(octets::specs::Octets::part_of))]
pub fn piece(image: &[u8], size: usize, number: usize) -> &[u8]
    ensures { result.now ≡ piece_of image.now size number }
{
    match before(number).checked_mul(size) {
        Some(at) => octets::part(image, at, size),
        None => &[],
    }
}

// How many pieces stand before one. A public call that edits hold, so it stays beside std's.
pub fn before(number: usize) -> usize
    ensures { result ≡ number - 1 }
{
    number.saturating_sub(1)
}

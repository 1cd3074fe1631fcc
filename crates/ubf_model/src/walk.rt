// What the walk over the blocks of a file finds.
use crate::block::Block;
use refusals::Refusal;

// The n-th block, counted from 0, and its place; or how many blocks the file has, where they are too few; or the first faulty
// block's refusal and place, and how many good blocks stand before it.
#[derive(Clone, Copy)]
pub enum Nth {
    Found {
        block: Block,
        place: usize,
    },
    Past {
        count: usize,
    },
    Refused {
        refusal: Refusal,
        place: usize,
        count: usize,
    },
}

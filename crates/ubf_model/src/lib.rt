// UBF files as rules: what a block is, how one is read and written, and the walk over the blocks of a file (specs/). No function; the
// calls are those of `ubf`.
#![tactic(auto)]

mod block;
mod pack;
mod walk;

pub use block::{
    ADDRESS_PLACE, Block, DATE_PLACE, DATE_SIZE, HEADER_SIZE, LENGTH_PLACE, MARK_PLACE,
    MODEL_PLACE, MODEL_SIZE, NAME_PLACE, NAME_SIZE, START_PLACE, TYPE_PLACE, VERSION_PLACE,
    VERSION_SIZE,
};
pub use pack::Numbers;
pub use walk::Nth;

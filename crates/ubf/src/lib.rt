// UBF files: a block read, a block written, the walk over the blocks of a file.
#![tactic(auto)]

mod walk;

pub use ubf_block::{date, file_name, image, model, read, size, version, write};
pub use ubf_model::{Block, Nth, Numbers};
pub use walk::block_at;

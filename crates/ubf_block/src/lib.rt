// One block of a UBF file: read, written, and its parts.
#![tactic(auto)]

mod block;
mod pack;

pub use block::{date, file_name, image, model, read, size, version};
pub use pack::write;

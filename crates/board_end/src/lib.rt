// The module's end of a line: a board, which is a reader and the module's session, fed bytes.
#![tactic(auto)]

mod board;

pub use board::{Board, BoardStep};

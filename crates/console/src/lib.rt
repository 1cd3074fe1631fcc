// What programs print for people, and whole files in and out. No contract can speak of what an operating system reads or writes, so
// these calls are proved to be safe and to end, and what they do is tested; contracts say which texts are numbers, which paths are
// opened, and what holds of a file and its path where it was read or written. What they print goes where Print writes: a runtime's
// standard output, or its standard error. A write that fails is let be, since nothing is left to say so on.
#![tactic(auto)]

mod files;
mod show;
mod startup;

pub use files::{
    FILE, FLASH, FileError, PATH, SystemWords, Unwritten, open_update, openable, read_file,
    write_file,
};
pub use show::{Hex, Passed, Placed, Refused, Row, Text, Word, fail};
pub use startup::{arguments, number_of};

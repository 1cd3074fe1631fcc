// What one block says.
use kinds::Kind;

// The header, up to the first place where the image may start.
pub const HEADER_SIZE: usize = 0xD0;

// Where the fields stand in it.
pub const MARK_PLACE: usize = 0x00;

pub const LENGTH_PLACE: usize = 0x02;

pub const ADDRESS_PLACE: usize = 0x06;

pub const START_PLACE: usize = 0x0A;

pub const TYPE_PLACE: usize = 0x0E;

pub const MODEL_PLACE: usize = 0x10;

pub const VERSION_PLACE: usize = 0x20;

pub const NAME_PLACE: usize = 0x30;

pub const DATE_PLACE: usize = 0xB0;

// How many bytes each text has.
pub const MODEL_SIZE: usize = 16;

pub const VERSION_SIZE: usize = 16;

pub const NAME_SIZE: usize = 128;

pub const DATE_SIZE: usize = 32;

// The fields of a block. Its texts and its image stay in the caller's file.
#[derive(Clone, Copy)]
pub struct Block {
    pub kind: Kind,
    pub extent: u32,
    pub start: u32,
    pub check: u32,
}

// The record of a session: the place of each number in it, its size, and the numbers of the phases. Whatever is added comes last.
// Places and phases are numbers and no enum: C keeps the record, and include/zrnkobal.h says them at ZRN_MODULE_BYTES.
pub(crate) const FLASH_PLACE: usize = 0;

pub(crate) const IDLE_PLACE: usize = 8;

pub(crate) const PHASE_PLACE: usize = 12;

pub(crate) const TYPE_PLACE: usize = 16;

pub(crate) const LENGTH_PLACE: usize = 20;

pub(crate) const SIZE_PLACE: usize = 24;

pub(crate) const NUMBER_PLACE: usize = 28;

pub(crate) const WRITTEN_PLACE: usize = 32;

pub(crate) const RECORD_WORDS: usize = 9;

pub const RECORD_BYTES: usize = 4 * RECORD_WORDS;

pub(crate) const CLOSED_PHASE: u32 = 0;

pub(crate) const READY_PHASE: u32 = 1;

pub(crate) const BEGUN_PHASE: u32 = 2;

pub(crate) const LOADING_PHASE: u32 = 3;

pub(crate) const DONE_PHASE: u32 = 4;

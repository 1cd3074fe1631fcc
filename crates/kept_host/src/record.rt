// The record of a session: the place of each number in it, its size, and the numbers of the stages. Whatever is added comes last.
// Places and stages are numbers and no enum: C keeps the record, and include/zrnkobal.h says them at ZRN_HOST_BYTES.
pub(crate) const IMAGE_PLACE: usize = 0;

pub(crate) const WISH_PLACE: usize = 8;

pub(crate) const STAGE_PLACE: usize = 16;

pub(crate) const TYPE_PLACE: usize = 20;

pub(crate) const FIRST_PLACE: usize = 24;

pub(crate) const RATE_PLACE: usize = 28;

pub(crate) const START_PLACE: usize = 32;

pub(crate) const SAME_PLACE: usize = 36;

pub(crate) const SIZE_PLACE: usize = 40;

pub(crate) const NUMBER_PLACE: usize = 44;

pub(crate) const WAITED_PLACE: usize = 48;

pub(crate) const REPEATS_PLACE: usize = 52;

pub(crate) const RECORD_WORDS: usize = 14;

pub const RECORD_BYTES: usize = 4 * RECORD_WORDS;

pub(crate) const ENDED_STAGE: u8 = 0;

pub(crate) const TEXT_STAGE: u8 = 1;

pub(crate) const ASKING_STAGE: u8 = 2;

pub(crate) const DECLARING_STAGE: u8 = 3;

pub(crate) const SENDING_STAGE: u8 = 4;

pub(crate) const NOTICING_STAGE: u8 = 5;

pub(crate) const RESTARTING_STAGE: u8 = 6;

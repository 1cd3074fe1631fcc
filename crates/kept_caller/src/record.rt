// The record: a reader's, how much of the answer to the start text has been heard, messages resent, frames dropped, a session's. The place
// of each, and its size.
pub(crate) const SEEN_PLACE: usize = kept_reader::READER_BYTES;

pub(crate) const RESENT_PLACE: usize = SEEN_PLACE + 4;

pub(crate) const DROPPED_PLACE: usize = SEEN_PLACE + 12;

pub(crate) const SESSION_PLACE: usize = SEEN_PLACE + 20;

pub(crate) const CALLER_BYTES: usize = SESSION_PLACE + kept_host::RECORD_BYTES;

pub(crate) const COUNTS_WORDS: usize = 5;

pub(crate) const COUNTS_BYTES: usize = 4 * COUNTS_WORDS;

// The answers that are no refusal. A refusal is answered by its own number, 1 to 22. No enum: C takes numbers (zrnkobal.h).

pub const NOTHING: u8 = 0;

pub const WRITTEN: u8 = 100;

pub const FRAME: u8 = 101;

pub const DROPPED: u8 = 102;

pub const DONE: u8 = 103;

pub const FOUND: u8 = 104;

pub const PAST: u8 = 105;

pub const UNKNOWN: u8 = 106;

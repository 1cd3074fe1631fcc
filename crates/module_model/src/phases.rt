// How far a session is.
use kinds::Kind;

// The largest flash; the longest idle sum of an open session, and the sum at which one closes and stops.
pub const LARGEST_FLASH: usize = 262144;

pub const LONGEST_IDLE: u32 = 7000;

pub const CLOSING_IDLE: u32 = 7001;

// What accepted parameters declare: the type, and how many bytes the image has.
#[derive(Clone, Copy)]
pub struct Transfer {
    pub kind: Kind,
    pub extent: usize,
}

// A transfer with the packet size that packet 1 has set. Total follows from both.
#[derive(Clone, Copy)]
pub struct Pieces {
    pub transfer: Transfer,
    pub size: usize,
}

// Ready has no transfer; Begun waits for packet 1; Loading has accepted packets 1 to number and wants more; Done has them all.
#[derive(Clone, Copy)]
pub enum Phase {
    Closed,
    Ready,
    Begun(Transfer),
    Loading {
        pieces: Pieces,
        number: usize,
        written: usize,
    },
    Done {
        pieces: Pieces,
        written: usize,
    },
}

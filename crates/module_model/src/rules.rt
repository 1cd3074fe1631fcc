// What the rules decide.
use crate::phases::Phase;

// The payload of parameters: the type at its front, the length and the address behind it.
pub const PARAMETERS_LENGTH: usize = 10;

pub const TYPE_AT: usize = 0;

pub const LENGTH_AT: usize = 2;

pub const ADDRESS_AT: usize = 6;

// The three numbers of a packet stand before its data.
pub const PACKET_HEAD: usize = 6;

// The State of the notice: all of the length was written, or not. It is a byte of the wire (commands/Commands), so a number.
pub const STATE_WHOLE: u8 = 0x00;

pub const STATE_SHORT: u8 = 0x01;

// What a reply says, by command; Last is the acknowledgement of the last packet with the notice behind it. ack and state are bytes of the wire
// as they go out: `packet_reply` and its like (commands) take any.
#[derive(Clone, Copy)]
pub enum Say {
    Nothing,
    Rate { rate: u8, ack: u8 },
    Parameters { ack: u8 },
    Packet { number: usize, ack: u8 },
    Last { number: usize, state: u8 },
    Restart { ack: u8 },
}

// What a frame does: the phase after it, what is said, and where the data of an accepted packet go, if anywhere.
#[derive(Clone, Copy)]
pub struct Decision {
    pub phase: Phase,
    pub say: Say,
    pub put: Option<usize>,
}

// The numbers of a packet; its data stand behind them in the payload.
#[derive(Clone, Copy)]
pub struct Numbers {
    pub total: usize,
    pub number: usize,
    pub size: usize,
}

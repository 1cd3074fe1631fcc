// Frames in words.
use console::{Hex, Refused, Word};
use host_model::Rate;
use refusals::Refusal;
use std::fmt;

// A frame that the host sends.
#[derive(Clone, Copy)]
pub(crate) struct Ordered<'a> {
    pub(crate) command: u8,
    pub(crate) payload: &'a [u8],
}

// A frame that the module answers with.
#[derive(Clone, Copy)]
pub(crate) struct Answered<'a> {
    pub(crate) command: u8,
    pub(crate) payload: &'a [u8],
}

impl fmt::Display for Ordered<'_> {
    fn fmt<W: fmt::Write>(&self, f: &mut fmt::Formatter<W>) -> fmt::Result {
        let payload = self.payload;
        match self.command {
            commands::RATE => write!(f, "rate {}", RateNumber(octets::byte_at(payload, 0))),
            commands::PARAMETERS => write!(
                f,
                "type {}, length {}, address {}",
                octets::two_at(payload, 0),
                octets::four_at(payload, 2),
                Word(octets::four_at(payload, 6))
            ),
            commands::PACKET => write!(
                f,
                "packet {} of {}, {} bytes",
                octets::two_at(payload, 2),
                octets::two_at(payload, 0),
                octets::two_at(payload, 4)
            ),
            commands::RESTART => f.write_str("restart"),
            _ => f.write_str("UNKNOWN COMMAND"),
        }
    }
}

impl fmt::Display for Answered<'_> {
    fn fmt<W: fmt::Write>(&self, f: &mut fmt::Formatter<W>) -> fmt::Result {
        let payload = self.payload;
        match self.command {
            commands::RATE => write!(
                f,
                "rate {}, {}",
                RateNumber(octets::byte_at(payload, 0)),
                acknowledged(payload, 1, "not supported", "not listed")
            ),
            commands::PARAMETERS => write!(
                f,
                "MaxPk {}, {}",
                octets::two_at(payload, 0),
                acknowledged(payload, 2, "wrong type", "length does not fit")
            ),
            commands::PACKET => write!(
                f,
                "PkNo {}, {}",
                octets::two_at(payload, 0),
                acknowledged(payload, 2, "wrong version", "same version")
            ),
            commands::RESTART => write!(
                f,
                "restart, {}",
                acknowledged(payload, 0, "not listed", "not listed")
            ),
            commands::NOTICE => write!(f, "notice, {}", State(octets::byte_at(payload, 0))),
            _ => f.write_str("UNKNOWN COMMAND"),
        }
    }
}

// ACK 01 and 02 have a meaning of their own in each command. It stays the byte of the wire, and no enum: any byte may come, and is shown.
#[derive(Clone, Copy)]
struct Acknowledgement {
    ack: u8,
    first: &'static str,
    second: &'static str,
}

fn acknowledged(
    payload: &[u8],
    at: usize,
    first: &'static str,
    second: &'static str,
) -> Acknowledgement {
    Acknowledgement {
        ack: octets::byte_at(payload, at),
        first,
        second,
    }
}

impl fmt::Display for Acknowledgement {
    fn fmt<W: fmt::Write>(&self, f: &mut fmt::Formatter<W>) -> fmt::Result {
        let ack = self.ack;
        let words = match ack {
            commands::ACCEPTED => "accepted",
            commands::WRONG_FIRST => self.first,
            commands::WRONG_SECOND => self.second,
            commands::NOT_UNDERSTOOD => "wrong command, send again",
            _ => "not listed",
        };
        write!(f, "ACK {}: {words}", Hex(&[ack]))
    }
}

// How the module says that the load went. It stays the byte of the wire, as an ACK does.
#[derive(Clone, Copy)]
struct State(u8);

impl fmt::Display for State {
    fn fmt<W: fmt::Write>(&self, f: &mut fmt::Formatter<W>) -> fmt::Result {
        let state = self.0;
        let words = match state {
            0 => "success",
            1 => "received data wrong",
            2 => "writing the flash failed",
            3 => "verification failed",
            _ => "not listed",
        };
        write!(f, "State {state}: {words}")
    }
}

// The number of a rate, as 0x01 carries it, and the rate.
#[derive(Clone, Copy)]
struct RateNumber(u8);

impl fmt::Display for RateNumber {
    fn fmt<W: fmt::Write>(&self, f: &mut fmt::Formatter<W>) -> fmt::Result {
        let number = self.0;
        match Rate::try_from(number) {
            Ok(rate) => write!(f, "{number} ({rate})"),
            Err(_) => write!(f, "{number} (not listed)"),
        }
    }
}

// A refusal by number, which an answer may tell so: any number, with its words.
#[derive(Clone, Copy)]
pub struct Told(pub u8);

impl fmt::Display for Told {
    fn fmt<W: fmt::Write>(&self, f: &mut fmt::Formatter<W>) -> fmt::Result {
        match Refusal::try_from(self.0) {
            Ok(refusal) => write!(f, "{}", Refused(refusal)),
            Err(unknown) => write!(f, "refused {}, {unknown}", self.0),
        }
    }
}

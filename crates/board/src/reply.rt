// What a reply of the board says, read back as the other end reads it.
use reader::{Heard, Reader};

// A frame whose last payload byte, ACK or State, is not 0.
#[derive(Clone, Copy, Debug, PartialEq, Eq)]
pub struct Refusing {
    pub command: u8,
    pub ack: u8,
}

// A text is no frame and refuses nothing.
pub fn read_back(bytes: &[u8]) -> Option<Refusing> {
    let mut reader = Reader::new();
    for &byte in bytes {
        let stepped = reader.step(byte);
        reader = stepped.reader;
        if let Heard::Frame { command, count } = stepped.heard
            && let Some(&ack) = reader::payload(&reader.store, count).last()
            && ack != 0
        {
            return Some(Refusing { command, ack });
        }
    }
    None
}

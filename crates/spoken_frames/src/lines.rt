// A line a message: its bytes as on the wire, and what they say, read back by the reader.
use crate::words::{Answered, Ordered};
use console::{Row, Text};
use reader::{Heard, Reader};
use std::fmt;

// How a line begins: the module is heard, the host sends, or a session stands.
#[derive(Clone, Copy, Debug, PartialEq, Eq)]
pub enum Mark {
    Heard,
    Sent,
    Session,
}

impl fmt::Display for Mark {
    fn fmt<W: fmt::Write>(&self, f: &mut fmt::Formatter<W>) -> fmt::Result {
        f.write_str(match self {
            Mark::Heard => "<",
            Mark::Sent => ">",
            Mark::Session => "=",
        })
    }
}

// Where the lines go, and how many bytes each shows at most.
#[derive_where(Clone, Copy)]
pub struct Lines<'a, P: Print> {
    pub rt: &'a P,
    pub places: usize,
}

// These calls only print, so no contract speaks of them.
impl<P: Print> Lines<'_, P> {
    // The head of a case.
    pub fn title(self, words: &str) {
        let _ = println!(self.rt; "\n{words}");
    }

    // The front of a line with no bytes in it.
    pub fn front(self, mark: Mark) {
        let bytes = b"".as_slice();
        let places = self.places;
        let _ = print!(self.rt; "{mark}{}  ", Row { bytes, places });
    }

    // A line with no bytes in it.
    pub fn words_only(self, mark: Mark, words: &(impl fmt::Display + Drop)) {
        self.front(mark);
        let _ = println!(self.rt; "{words}");
    }

    // Milliseconds pass for the one who is marked.
    pub fn passed(self, mark: Mark, ms: u32) {
        self.front(mark);
        let _ = println!(self.rt; "{ms} ms pass");
    }

    // A line a frame. Bytes behind the last one that are no line of text would show. A loop over places, and no split of the bytes: where a
    // frame ends only the reader knows, and the payload is in its store then.
    pub fn message(self, mark: Mark, bytes: &[u8]) {
        let mut reader = Reader::new();
        let mut from = 0;
        for (i, &byte) in bytes.iter().enumerate() {
            let stepped = reader.step(byte);
            reader = stepped.reader;
            if let Heard::Frame { command, count } = stepped.heard {
                let frame = &bytes[from..i + 1];
                self.frame(mark, frame, command, reader::payload(&reader.store, count));
                from = i + 1;
            }
        }
        self.rest(mark, &bytes[from..]);
    }

    // A frame: a command has a payload of its own in each direction.
    fn frame(self, mark: Mark, bytes: &[u8], command: u8, payload: &[u8]) {
        self.bytes(mark, bytes);
        let _ = match mark {
            Mark::Heard => println!(self.rt; "{}", Answered { command, payload }),
            _ => println!(self.rt; "{}", Ordered { command, payload }),
        };
    }

    // What is left behind the last frame. A line of text ends with CR LF.
    fn rest(self, mark: Mark, bytes: &[u8]) {
        if bytes.is_empty() {
            return;
        }
        self.bytes(mark, bytes);
        if let Some(text) = bytes.strip_suffix(b"\r\n") {
            let _ = println!(self.rt; "text {}, CR LF", Text(text));
        } else {
            let _ = println!(self.rt; "NO FRAME");
        }
    }

    // All of a short message; of a long one its front and its end, if there are places for both.
    fn bytes(self, mark: Mark, bytes: &[u8]) {
        let n = bytes.len();
        let _ = self.rt.print(mark);
        if n <= self.places || self.places < 4 {
            self.row(bytes, self.places);
        } else {
            let (front, end) = (&bytes[..self.places - 4], &bytes[n - 3..]);
            self.row(front, self.places - 4);
            let _ = print!(self.rt; " ..");
            self.row(end, 3);
        }
        let _ = print!(self.rt; "  ");
    }

    fn row(self, bytes: &[u8], places: usize) {
        let _ = self.rt.print(Row { bytes, places });
    }
}

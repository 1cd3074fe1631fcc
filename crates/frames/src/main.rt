// Reads raw bytes from standard input to its end and prints each frame: command, payload count, payload in hex or a dash.
#![tactic(auto)]

use console::{Hex, SystemWords};
use reader::{Heard, Reader};
use std::io::{BufReader, Read};
use std::{fmt, io};

// How many bytes are read at a time.
const PIECE: usize = 65536;

// The reader and the count of the frames that it handed out.
#[derive(Clone, Copy)]
struct Listening {
    reader: Reader,
    total: u64,
}

impl Listening {
    // Prints the frame that a byte ends, if it does, and counts it.
    fn hear(&mut self, rt: &impl Print, byte: u8) -> io::Result<()> {
        let before = self.reader;
        let stepped = before.step(byte);
        self.reader = stepped.reader;
        if let Heard::Frame { command, count } = stepped.heard {
            let store = self.reader.store;
            let payload = Payload(reader::payload(&store, count));
            let length = payload.0.len();
            let command = [command];
            println!(rt; "{} {length} {payload}", Hex(&command))?;
            self.total = self.total.wrapping_add(1);
        }
        Ok(())
    }
}

// Bytes in hex, or a dash for none.
#[derive(Clone, Copy)]
struct Payload<'a>(&'a [u8]);

impl fmt::Display for Payload<'_> {
    fn fmt<W: fmt::Write>(&self, f: &mut fmt::Formatter<W>) -> fmt::Result {
        if self.0.is_empty() {
            return f.write_str("-");
        }
        write!(f, "{}", Hex(self.0))
    }
}

fn main(rt: HostRuntime) {
    let err = rt.stderr();
    let _ = rt.println("frames");
    let mut listening = Listening {
        reader: Reader::new(),
        total: 0,
    };
    match BufReader::with_capacity(rt.alloc(), PIECE, rt.reader()) {
        Ok(input) => {
            // Where printing fails nobody reads what is printed any more.
            let _ = listen(&rt, &err, input, &mut listening);
        }
        Err(error) => console::fail(&err, b"frames", &SystemWords(&error)),
    }
    let total = listening.total;
    let _ = println!(rt; "total {total}");
}

// Takes the input to its end, or until it can't be read.
fn listen(
    rt: &impl Print,
    err: &impl Print,
    input: impl Read + Drop,
    listening: &mut Listening,
) -> io::Result<()> {
    for byte in input.bytes() {
        match byte {
            Ok(byte) => listening.hear(rt, byte)?,
            Err(error) => {
                console::fail(err, b"standard input", &SystemWords(&error));
                break;
            }
        }
    }
    Ok(())
}

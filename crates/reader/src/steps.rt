// The reader's state and its step.
ghost use Rattle.std.specs.Prelude.{◌≡◌, ◌≤◌, ◌<◌, take};
ghost use Rattle.wire.specs.Frame.{longest_content, is_content};
ghost use Rattle.reader.specs.Reader.{fresh, known_of, closed_of, answers, moved_by, step_of, payload_in};

use crate::moves::{Move, move_of};
use wire::CONTENT_MOST;

// The content so far stands in the first count bytes of the store. Count and flags stay beside it, and the store an array: C keeps a reader so
// (kept_reader/Kept, `bytes_of`), and bytes behind the count are kept too (`fresh`, `step_of`).
#[derive(Clone, Copy)]
pub struct Reader {
    pub store: [u8; CONTENT_MOST],
    pub count: usize,
    pub opened: bool,
    pub pending: bool,
}

// What a byte brought. A frame's payload is the next count bytes of the store behind Length, device and command: the store goes out with
// the reader, so no slice of it can stand here.
#[derive(Clone, Copy)]
pub enum Heard {
    Nothing,
    Frame { command: u8, count: usize },
    Dropped,
}

// The reader handed back, and what the byte brought. A struct of its own and no generic pair: README and the statements name the parts, and
// `.reader` says more than `.0`.
#[derive(Clone, Copy)]
pub struct Stepped {
    pub reader: Reader,
    pub heard: Heard,
}

impl Reader {
    // A reader at the start.
    #[tactic(auto, unfolding(crate::specs::Reader::fresh))]
    pub fn new() -> Reader
        ensures { result ≡ fresh }
    {
        Reader {
            store: [0u8; CONTENT_MOST],
            count: 0,
            opened: false,
            pending: false,
        }
    }

    // Takes one byte. Any reader may be handed in: one with a count over 1,035 is taken as a fresh one.
    #[tactic(auto, using(crate::specs::MovesLaws::HasRoom, crate::specs::MovesLaws::move_room), unfolding(crate::specs::Reader::step_of, crate::specs::Reader::known_step))]
    pub fn step(self, byte: u8) -> Stepped
        ensures { result ≡ step_of self byte }
    {
        let known = self.known();
        let go = move_of(known.count, known.opened, known.pending, byte);
        match go {
            Move::Pass => known.answers(Heard::Nothing),
            Move::Begin => known.begins(),
            Move::Wait => known.waits(),
            Move::Put(content) => known.puts(content),
            Move::Drop => known.closed().answers(Heard::Dropped),
            Move::End => known.ends(),
        }
    }

    #[tactic(auto, unfolding(crate::specs::Reader::known_of, crate::specs::Reader::fresh))]
    fn known(self) -> Reader
        ensures { (result ≡ known_of self) × (result.count ≤ longest_content) }
    {
        if self.count <= CONTENT_MOST {
            return self;
        }
        Reader::new()
    }

    // The head opens a frame, whatever went before.
    fn begins(self) -> Stepped
        ensures { result ≡ moved_by Move.Begin self }
    {
        let mut next = self;
        next.count = 0;
        next.opened = true;
        next.pending = false;
        if self.opened {
            return next.answers(Heard::Dropped);
        }
        next.answers(Heard::Nothing)
    }

    fn waits(self) -> Stepped
        ensures { result ≡ moved_by Move.Wait self }
    {
        let mut next = self;
        next.pending = true;
        next.answers(Heard::Nothing)
    }

    fn puts(self, byte: u8) -> Stepped
        requires { self.count < longest_content }
        ensures { result ≡ moved_by (Move.Put byte) self }
    {
        let at = self.count;
        let mut next = self;
        next.store[at] = byte;
        next.count = at + 1;
        next.pending = false;
        next.answers(Heard::Nothing)
    }

    // The tail closes, and hands out the frame if there is one.
    #[tactic(auto, unfolding(wire::specs::Frame::is_content, crate::specs::Reader::held_of))]
    fn ends(self) -> Stepped
        requires { self.count ≤ longest_content }
        ensures { result ≡ moved_by Move.End self }
    {
        let store = self.store;
        let count = self.count;
        if is_frame(&store, count) {
            return self.closed().answers(Heard::Frame {
                command: store[3],
                count: count - wire::CONTENT_LEAST,
            });
        }
        self.closed().answers(Heard::Dropped)
    }

    fn closed(self) -> Reader
        ensures { result ≡ closed_of self }
    {
        let mut next = self;
        next.opened = false;
        next.pending = false;
        next
    }

    fn answers(self, heard: Heard) -> Stepped
        ensures { result ≡ answers heard self }
    {
        Stepped {
            reader: self,
            heard,
        }
    }
}

// Whether the content so far is that of a frame.
fn is_frame(store: &[u8; CONTENT_MOST], count: usize) -> bool
    requires { count ≤ longest_content }
    ensures { result ≡ is_content (take count store.now) }
{
    wire::is_content(&store[..count])
}

// The payload of a handed-out frame, as a part of the store that the reader carries.
pub fn payload(store: &[u8], count: usize) -> &[u8]
    ensures { result.now ≡ payload_in store.now count }
{
    octets::part(store, 4, count)
}

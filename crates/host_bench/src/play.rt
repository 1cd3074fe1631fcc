// The cases, step by step.
use crate::story::{Image, STORY, Step, Wish};
use console::Refused;
use host::{Event, Session, Stepped};
use spoken_frames::{Lines, Mark};
use spoken_host::{PLACES, show_answer, show_session};
use stages::{Rate, Same, Start};

// Most cases load these: two pieces of 8 bytes, or one of 16. The ninth is the head mark, which is escaped.
const SHORT: &[u8] = &[
    0x11, 0x12, 0x13, 0x14, 0x15, 0x16, 0x17, 0x18, 0xDB, 0x22, 0x23, 0x24, 0x25, 0x26, 0x27, 0x28,
];

// The most bytes of output that are lent. Each room is an array of a known size, since a Vec would add a failure.
const ROOM: usize = 64;

// The session, what is lent to it, and where the lines go.
#[derive(Drop)]
struct Bench<'a, P: Print> {
    lines: Lines<'a, P>,
    session: Session,
    zeros: &'a [u8],
    image: &'a [u8],
    room: usize,
}

// The first session is one whose opening is refused.
pub(crate) fn play(rt: &impl Print, zeros: &[u8]) {
    let refused = Session::opening(0, b"", Rate::R9600, 0, Start::AtOnce, Same::Stop, &mut []);
    let mut bench = Bench {
        lines: Lines { rt, places: PLACES },
        session: refused.session,
        zeros,
        image: b"",
        room: 0,
    };
    for &step in STORY {
        bench.step(step);
    }
}

impl<P: Print> Bench<'_, P> {
    fn step(&mut self, step: Step) {
        match step {
            Step::Title(words) => self.lines.title(words),
            Step::Lend(image, room) => self.lends(image, room),
            Step::Open(wish) => self.opens(wish),
            Step::OpenRated(wish) => self.opens_rated(wish),
            Step::Frame(command, payload) => self.hears(command, payload),
            Step::Line(line) => {
                self.lines.message(Mark::Heard, line);
                self.takes(Event::Line { count: line.len() }, line);
            }
            Step::Pass(ms) => {
                self.lines.passed(Mark::Heard, ms);
                self.takes(Event::Elapsed(ms), b"");
                show_session(self.lines, self.session);
            }
            Step::Stands => show_session(self.lines, self.session),
        }
    }

    fn lends(&mut self, image: Image, room: usize) {
        self.image = match image {
            Image::Zeros => self.zeros,
            Image::Front(n) => octets::part(SHORT, 0, n),
        };
        self.room = room;
    }

    fn opens(&mut self, wish: Wish) {
        let mut bytes = [0u8; ROOM];
        let out = lent(&mut bytes, self.room);
        let opened = wish.opening(self.image, out);
        self.session = opened.session;
        show_answer(self.lines, opened.answer, out);
    }

    // Only what comes when the rate is accepted is shown.
    fn opens_rated(&mut self, wish: Wish) {
        let mut bytes = [0u8; ROOM];
        let out = lent(&mut bytes, self.room);
        let opened = wish.opening(self.image, out);
        let accepted = [u8::from(wish.rate), commands::ACCEPTED];
        let event = arrived(commands::RATE, &accepted);
        let rated = opened.session.step(event, &accepted, self.image, out);
        self.session = rated.session;
    }

    // A frame of the module is heard, as it comes on the wire.
    fn hears(&mut self, command: u8, payload: &[u8]) {
        let mut wire = [0u8; 64];
        let written = wire::write(command, payload, &mut wire);
        match written {
            Ok(n) => self.lines.message(Mark::Heard, octets::part(&wire, 0, n)),
            Err(refusal) => {
                let _ = self.lines.rt.print(Refused(refusal));
            }
        }
        self.takes(arrived(command, payload), payload);
    }

    // A step, and what it answers.
    fn takes(&mut self, event: Event, heard: &[u8]) {
        let mut bytes = [0u8; ROOM];
        let out = lent(&mut bytes, self.room);
        let stepped = self.session.step(event, heard, self.image, out);
        self.session = stepped.session;
        show_answer(self.lines, stepped.answer, out);
    }
}

impl Wish {
    fn opening(self, image: &[u8], out: &mut [u8]) -> Stepped {
        Session::opening(
            self.kind, image, self.rate, self.piece, self.start, self.same, out,
        )
    }
}

// So much of the output as is lent: the cases lend rooms of several sizes, and an array has one, so they are parts of the largest.
fn lent(bytes: &mut [u8; ROOM], room: usize) -> &mut [u8] {
    &mut bytes[..room.min(ROOM)]
}

// The event of a frame with this payload.
fn arrived(command: u8, payload: &[u8]) -> Event {
    Event::Frame {
        command,
        count: payload.len(),
    }
}

// The cases. Most load two pieces of 8 bytes, or one of 16.
use stages::{Rate, Same, Start};

// What an opening asks for. The kind stays a number, as the call takes it: a case opens with type 4, which no kind has.
#[derive(Clone, Copy)]
pub(crate) struct Wish {
    pub(crate) kind: u16,
    pub(crate) rate: Rate,
    pub(crate) piece: usize,
    pub(crate) start: Start,
    pub(crate) same: Same,
}

// The image that is lent: so many zeros as can be cut into pieces of 4, or the front of the short one.
#[derive(Clone, Copy)]
pub(crate) enum Image {
    Zeros,
    Front(usize),
}

#[derive(Clone, Copy)]
pub(crate) enum Step {
    Title(&'static str),
    // What is lent from now on: an image, and room for so many bytes of output.
    Lend(Image, usize),
    Open(Wish),
    // Opens, and the module accepts the rate; not shown.
    OpenRated(Wish),
    // A frame of the module is heard: command and payload.
    Frame(u8, &'static [u8]),
    // A line of text is heard, its CR LF with it.
    Line(&'static [u8]),
    // So many milliseconds pass.
    Pass(u32),
    // Where the session stands.
    Stands,
}

const TWO_PIECES: Wish = Wish {
    kind: 1,
    rate: Rate::R115200,
    piece: 8,
    start: Start::AtOnce,
    same: Same::Stop,
};

const ONE_PIECE: Wish = Wish {
    piece: 1024,
    ..TWO_PIECES
};

const WITH_TEXT: Wish = Wish {
    start: Start::WithText,
    ..TWO_PIECES
};

pub(crate) const STORY: &[Step] = &[
    Step::Title("a clean load: type 1, 16 bytes, wish 8, start text, first rate 115200"),
    Step::Lend(Image::Front(16), 64),
    Step::Open(WITH_TEXT),
    Step::Stands,
    Step::Line(b"$PCAS30,3*1D\r\n"),
    Step::Stands,
    Step::Frame(commands::RATE, &[0x05, 0x00]),
    Step::Stands,
    Step::Frame(commands::PARAMETERS, &[0x00, 0x04, 0x00]),
    Step::Stands,
    Step::Frame(commands::PACKET, &[0x01, 0x00, 0x00]),
    Step::Stands,
    Step::Frame(commands::PACKET, &[0x02, 0x00, 0x00]),
    Step::Stands,
    Step::Frame(commands::NOTICE, &[0x00]),
    Step::Stands,
    Step::Frame(commands::RESTART, &[0x00]),
    Step::Stands,
    Step::Title("115200 and 57600 refused, 38400 accepted; no start text"),
    Step::Open(TWO_PIECES),
    Step::Frame(commands::RATE, &[0x05, 0x01]),
    Step::Frame(commands::RATE, &[0x04, 0x01]),
    Step::Stands,
    Step::Frame(commands::RATE, &[0x03, 0x00]),
    Step::Stands,
    Step::Title("9600 refused"),
    Step::Open(Wish {
        rate: Rate::R9600,
        ..TWO_PIECES
    }),
    Step::Frame(commands::RATE, &[0x01, 0x01]),
    Step::Stands,
    Step::Title("a lost acknowledgement, and answers that do not fit"),
    Step::OpenRated(TWO_PIECES),
    Step::Frame(commands::PARAMETERS, &[0x00, 0x04, 0x00]),
    Step::Pass(999),
    Step::Pass(1),
    Step::Frame(commands::PACKET, &[0x02, 0x00, 0x00]),
    Step::Frame(commands::PACKET, &[0x01, 0x00, 0x03]),
    Step::Stands,
    Step::Frame(commands::PACKET, &[0x01, 0x00, 0x00]),
    Step::Stands,
    Step::Title("ACK 10 four times, and a frame after the end"),
    Step::OpenRated(TWO_PIECES),
    Step::Frame(commands::PARAMETERS, &[0x00, 0x04, 0x00]),
    Step::Frame(commands::PACKET, &[0x00, 0x00, 0x10]),
    Step::Frame(commands::PACKET, &[0x00, 0x00, 0x10]),
    Step::Frame(commands::PACKET, &[0x00, 0x00, 0x10]),
    Step::Stands,
    Step::Frame(commands::PACKET, &[0x00, 0x00, 0x10]),
    Step::Stands,
    Step::Frame(commands::PACKET, &[0x01, 0x00, 0x00]),
    Step::Stands,
    Step::Title("the same version: go on"),
    Step::OpenRated(Wish {
        same: Same::GoOn,
        ..TWO_PIECES
    }),
    Step::Frame(commands::PARAMETERS, &[0x00, 0x04, 0x00]),
    Step::Frame(commands::PACKET, &[0x01, 0x00, 0x02]),
    Step::Stands,
    Step::Title("the same version: stop"),
    Step::OpenRated(TWO_PIECES),
    Step::Frame(commands::PARAMETERS, &[0x00, 0x04, 0x00]),
    Step::Frame(commands::PACKET, &[0x01, 0x00, 0x02]),
    Step::Stands,
    Step::Title("notice with State 0"),
    Step::OpenRated(ONE_PIECE),
    Step::Frame(commands::PARAMETERS, &[0x00, 0x04, 0x00]),
    Step::Frame(commands::PACKET, &[0x01, 0x00, 0x00]),
    Step::Frame(commands::NOTICE, &[0x00]),
    Step::Stands,
    Step::Title("notice with State 1"),
    Step::OpenRated(ONE_PIECE),
    Step::Frame(commands::PARAMETERS, &[0x00, 0x04, 0x00]),
    Step::Frame(commands::PACKET, &[0x01, 0x00, 0x00]),
    Step::Frame(commands::NOTICE, &[0x01]),
    Step::Stands,
    Step::Title("notice with State 2"),
    Step::OpenRated(ONE_PIECE),
    Step::Frame(commands::PARAMETERS, &[0x00, 0x04, 0x00]),
    Step::Frame(commands::PACKET, &[0x01, 0x00, 0x00]),
    Step::Frame(commands::NOTICE, &[0x02]),
    Step::Stands,
    Step::Title("notice with State 3"),
    Step::OpenRated(ONE_PIECE),
    Step::Frame(commands::PARAMETERS, &[0x00, 0x04, 0x00]),
    Step::Frame(commands::PACKET, &[0x01, 0x00, 0x00]),
    Step::Frame(commands::NOTICE, &[0x03]),
    Step::Stands,
    Step::Title("the notice is missing"),
    Step::OpenRated(ONE_PIECE),
    Step::Frame(commands::PARAMETERS, &[0x00, 0x04, 0x00]),
    Step::Frame(commands::PACKET, &[0x01, 0x00, 0x00]),
    Step::Pass(4999),
    Step::Pass(1),
    Step::Title("opening with type 4"),
    Step::Open(Wish {
        kind: 4,
        ..WITH_TEXT
    }),
    Step::Stands,
    Step::Title("opening with an image of 6 bytes"),
    Step::Lend(Image::Front(6), 64),
    Step::Open(WITH_TEXT),
    Step::Stands,
    Step::Title("opening with an output of 5 bytes"),
    Step::Lend(Image::Front(16), 5),
    Step::Open(WITH_TEXT),
    Step::Stands,
    Step::Title("a step with an image of 12 bytes"),
    Step::Lend(Image::Front(16), 64),
    Step::OpenRated(TWO_PIECES),
    Step::Frame(commands::PARAMETERS, &[0x00, 0x04, 0x00]),
    Step::Lend(Image::Front(12), 64),
    Step::Frame(commands::PACKET, &[0x01, 0x00, 0x00]),
    Step::Stands,
    Step::Title("packet 2 with an output of 21 bytes, then of 22"),
    Step::Lend(Image::Front(16), 64),
    Step::OpenRated(TWO_PIECES),
    Step::Frame(commands::PARAMETERS, &[0x00, 0x04, 0x00]),
    Step::Lend(Image::Front(16), 21),
    Step::Frame(commands::PACKET, &[0x01, 0x00, 0x00]),
    Step::Stands,
    Step::Lend(Image::Front(16), 22),
    Step::Frame(commands::PACKET, &[0x01, 0x00, 0x00]),
    Step::Stands,
    Step::Title("type 2, 262,140 zeros, wish 4"),
    Step::Lend(Image::Zeros, 64),
    Step::Open(Wish {
        kind: 2,
        piece: 4,
        ..TWO_PIECES
    }),
    Step::Frame(commands::RATE, &[0x05, 0x00]),
    Step::Frame(commands::PARAMETERS, &[0x00, 0x04, 0x00]),
    Step::Stands,
    Step::Title("type 2, 262,140 zeros, wish 3"),
    Step::Lend(Image::Zeros, 64),
    Step::Open(Wish {
        kind: 2,
        piece: 3,
        ..TWO_PIECES
    }),
    Step::Frame(commands::RATE, &[0x05, 0x00]),
    Step::Frame(commands::PARAMETERS, &[0x00, 0x04, 0x00]),
    Step::Stands,
];

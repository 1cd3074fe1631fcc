// Document 01's story. The image is of type 1 and has 14 bytes; a packet's payload is Total, PkNo, PkSize, data.

// What is lent to the session beside a frame: the flash and room for any reply, or less.
#[derive(Clone, Copy)]
pub(crate) enum Lent {
    All,
    // A reply buffer of 63 bytes.
    ShortReply,
    // A flash of 100 bytes.
    SmallFlash,
    NoFlash,
}

#[derive(Clone, Copy)]
pub(crate) enum Step {
    Title(&'static str),
    // Opens over the flash.
    Open,
    OpenOverNothing,
    // A frame arrives: command, payload, and its words.
    Frame(Lent, u8, &'static [u8], &'static str),
    // So many milliseconds pass.
    Pass(u32),
    // Where the session stands.
    Stands,
    // The flash with so many bytes of the image.
    Flash(usize),
}

pub(crate) const STORY: &[Step] = &[
    Step::Title("opening over an empty flash"),
    Step::OpenOverNothing,
    Step::Frame(Lent::NoFlash, commands::RATE, &[0x05], "rate 5, 115200"),
    Step::Stands,
    Step::Title("opening over a flash of 32,792 bytes, all FF"),
    Step::Open,
    Step::Title("before any parameters"),
    Step::Frame(
        Lent::All,
        commands::PACKET,
        &[0x04, 0x00, 0x01, 0x00, 0x04, 0x00, 0x11, 0x12, 0x13, 0x14],
        "packet 1 of 4",
    ),
    Step::Stands,
    Step::Title("rates"),
    Step::Frame(Lent::All, commands::RATE, &[0x05], "rate 5, 115200"),
    Step::Frame(Lent::All, commands::RATE, &[0x06], "rate 6"),
    Step::Frame(
        Lent::All,
        commands::RATE,
        &[0xDB],
        "rate 219, 0xDB: escaped in the reply",
    ),
    Step::Frame(
        Lent::All,
        commands::RATE,
        &[0xDA],
        "rate 218, 0xDA: the check of the reply is DE, escaped",
    ),
    Step::Title("parameters"),
    Step::Frame(
        Lent::All,
        commands::PARAMETERS,
        &[0x01, 0x00, 0x0E, 0x00, 0x00, 0x00, 0x00, 0x00, 0x00, 0x00],
        "type 1, length 14, address 0",
    ),
    Step::Stands,
    Step::Frame(
        Lent::All,
        commands::PARAMETERS,
        &[0x01, 0x00, 0x19, 0x00, 0x00, 0x00, 0x00, 0x00, 0x00, 0x00],
        "type 1, length 25: the flash has room for 24",
    ),
    Step::Stands,
    Step::Title("packets"),
    Step::Frame(
        Lent::All,
        commands::PACKET,
        &[0x04, 0x00, 0x00, 0x00, 0x04, 0x00, 0x11, 0x12, 0x13, 0x14],
        "packet 0 of 4, before packet 1",
    ),
    Step::Frame(
        Lent::All,
        commands::PACKET,
        &[0x04, 0x00, 0x01, 0x00, 0x04, 0x00, 0x11, 0x12, 0x13, 0x14],
        "packet 1 of 4",
    ),
    Step::Frame(
        Lent::All,
        commands::PACKET,
        &[0x04, 0x00, 0x02, 0x00, 0x04, 0x00, 0x21, 0x22, 0x23, 0x24],
        "packet 2 of 4",
    ),
    Step::Frame(
        Lent::All,
        commands::PACKET,
        &[0x04, 0x00, 0x02, 0x00, 0x04, 0x00, 0x21, 0x22, 0x23, 0x24],
        "packet 2 of 4 again",
    ),
    Step::Stands,
    Step::Flash(8),
    Step::Frame(
        Lent::All,
        commands::PACKET,
        &[0x04, 0x00, 0x02, 0x00, 0x04, 0x00, 0x21, 0x22, 0x23, 0x25],
        "packet 2 of 4 again, last byte damaged",
    ),
    Step::Stands,
    Step::Flash(8),
    Step::Frame(
        Lent::All,
        commands::PACKET,
        &[0x04, 0x00, 0x03, 0x00, 0x04, 0x00, 0xDB, 0xDC, 0xDE, 0x34],
        "packet 3 of 4",
    ),
    Step::Frame(
        Lent::All,
        commands::PACKET,
        &[0x04, 0x00, 0x04, 0x00, 0x02, 0x00, 0x41, 0x42],
        "packet 4 of 4",
    ),
    Step::Frame(
        Lent::All,
        commands::PACKET,
        &[0x04, 0x00, 0x04, 0x00, 0x02, 0x00, 0x41, 0x42],
        "packet 4 of 4 again",
    ),
    Step::Stands,
    Step::Title("refused calls"),
    Step::Pass(3000),
    Step::Frame(
        Lent::ShortReply,
        commands::RESTART,
        &[],
        "restart, with a reply buffer of 63 bytes",
    ),
    Step::Stands,
    Step::Frame(
        Lent::SmallFlash,
        commands::RESTART,
        &[],
        "restart, with a flash of 100 bytes",
    ),
    Step::Stands,
    Step::Title("time and restart"),
    Step::Pass(4000),
    Step::Frame(Lent::All, commands::RESTART, &[], "restart"),
    Step::Stands,
    Step::Title("a second session over the same flash"),
    Step::Open,
    Step::Pass(7001),
    Step::Frame(Lent::All, commands::RATE, &[0x05], "rate 5, 115200"),
    Step::Stands,
    Step::Title("at the end"),
    Step::Flash(14),
];

// What the board says to a person, on standard error: the line may be standard output. What can't be said is let be.
use crate::keep::Unkept;
use crate::reply::Refusing;
use crate::station::{Log, Stop};
use console::{Hex, Refused, SystemWords};
use posts::{Stand, View};
use refusals::Refusal;

pub fn usage(err: &impl Print) {
    let _ = err.println("usage: board FLASH [LINE] [open]");
    let _ = err.println(
        "FLASH is a file of 1 to 262,144 bytes; LINE is a terminal, or - for standard input and output",
    );
}

pub fn empty(err: &impl Print) {
    let _ = err.println("board: the flash file is empty");
}

pub fn too_large(err: &impl Print) {
    let _ = err.println("board: the flash file is larger than 262,144 bytes");
}

pub fn beginning(err: &impl Print, opened: bool, extent: usize) {
    let stand = if opened {
        "session open"
    } else {
        "waiting for the start text"
    };
    let _ = println!(err; "board: flash of {extent} bytes, {stand}");
}

// What has changed between two looks at the post. A closed session says whether silence closed it.
pub fn change(err: &impl Print, before: View, after: View, idle: bool) {
    if before.stand == after.stand {
        return;
    }
    match after.stand {
        Stand::Closed => closed(err, idle),
        Stand::Ready => {
            let _ = err.println("board: session open");
        }
        Stand::Begun => {
            if let Some(kind) = after.kind {
                let extent = after.extent;
                let _ = println!(err; "board: parameters accepted: {kind}, length {extent}");
            }
        }
        Stand::Loading => (),
        Stand::Done => {
            let _ = err.println("board: done, all packets are in the flash");
        }
    }
}

fn closed(err: &impl Print, idle: bool) {
    let why = if idle {
        "after 7,000 ms of silence"
    } else {
        "by a restart"
    };
    let _ = println!(err; "board: closed {why}, waiting for the start text");
}

pub fn dropped(err: &impl Print) {
    let _ = err.println("board: a frame was dropped");
}

pub fn refusal(err: &impl Print, refusal: Refusal) {
    let refused = Refused(refusal);
    let _ = println!(err; "board: {refused}");
}

pub fn refusing(err: &impl Print, said: Refusing) {
    let Refusing { command, ack } = said;
    let (command, ack) = ([command], [ack]);
    let _ = println!(err;
        "board: command {} refused with ACK {}",
        Hex(&command),
        Hex(&ack)
    );
}

// Why the board stops; at the end of the input there is nothing to say.
pub fn stop(err: &impl Print, why: &Stop) {
    match why {
        Stop::End => (),
        Stop::Line(error) => console::fail(err, b"the line", &SystemWords(error)),
        Stop::Flash(Unkept::System(error)) => {
            console::fail(err, b"the flash file", &SystemWords(error));
            unwritten(err);
        }
        Stop::Flash(Unkept::Partly) => unwritten(err),
    }
}

fn unwritten(err: &impl Print) {
    let _ = err.println("board: the flash file could not be written; nothing was answered");
}

pub fn summary(err: &impl Print, log: Log, dropped: usize) {
    let Log {
        replies,
        refused,
        packets,
    } = log;
    let _ = println!(err;
        "board: the line has ended: {packets} packets written, {replies} replies, {refused} of them refusals, {dropped} frames dropped"
    );
}

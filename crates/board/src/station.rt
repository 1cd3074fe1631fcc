// The board at work: bytes and silence go to the post, the flash to its file, and then the reply to the line.
use crate::keep::{Unkept, keep_packet};
use crate::{reply, say};
use cable::{Cable, Came};
use module::Answer;
use module_model::SMALLEST_REPLY;
use posts::{Post, PostStep};
use std::io;
use std::io::{Read, Seek, Write};

// How many bytes are read at a time. They, and a reply, go into rooms of a known size, and into no Vec, which could fail.
const READ: usize = 256;

// What has been done.
#[derive(Clone, Copy, Default)]
pub struct Log {
    pub replies: usize,
    pub refused: usize,
    pub packets: usize,
}

// Why there is no more to do.
#[derive(Debug, Drop)]
pub enum Stop {
    End,
    Line(io::Error),
    Flash(Unkept),
}

impl From<Unkept> for Stop {
    fn from(why: Unkept) -> Stop {
        Stop::Flash(why)
    }
}

// The runtime and standard error, the line, the flash and its file, the post, and what has been done.
#[derive(Drop)]
pub struct Station<'a, R, E, F> {
    rt: &'a R,
    err: &'a E,
    cable: Cable<F>,
    file: F,
    flash: Vec<u8>,
    post: Post,
    log: Log,
}

impl<'a, R: Input + Print, E: Print, F: Read + Write + Seek> Station<'a, R, E, F> {
    pub fn new(
        rt: &'a R,
        err: &'a E,
        cable: Cable<F>,
        file: F,
        flash: Vec<u8>,
        opened: bool,
    ) -> Station<'a, R, E, F> {
        let waiting = Post::waiting();
        let post = if opened {
            waiting.opened(&flash)
        } else {
            waiting
        };
        Station {
            rt,
            err,
            cable,
            file,
            flash,
            post,
            log: Log::default(),
        }
    }

    pub fn serve(&mut self) {
        say::beginning(self.err, self.post.is_open(), self.flash.len());
        if let Err(why) = self.work() {
            say::stop(self.err, &why);
        }
        say::summary(self.err, self.log, self.post.dropped);
    }

    // Turns are counted, and no run uses them up: a `while` needs a measure, the line has no end that a proof knows, and a loop that may
    // wait is not allowed here.
    fn work(&mut self) -> Result<(), Stop> {
        for _ in 0..u64::MAX {
            self.turn()?;
        }
        Ok(())
    }

    // Reads once.
    fn turn(&mut self) -> Result<(), Stop> {
        let mut buffer = [0u8; READ];
        let came = cable::listen(self.rt, &mut self.cable, &mut buffer);
        match came.map_err(Stop::Line)? {
            Came::Bytes(n) => self.hear_all(octets::part(&buffer, 0, n)),
            Came::Silence => self.wait(),
            Came::End => Err(Stop::End),
        }
    }

    fn hear_all(&mut self, bytes: &[u8]) -> Result<(), Stop> {
        for &byte in bytes {
            self.hear(byte)?;
        }
        Ok(())
    }

    // This and `wait` differ in the call alone: a closure over the call would borrow the same flash and reply, so it would be no plainer.
    fn hear(&mut self, byte: u8) -> Result<(), Stop> {
        let mut reply = [0u8; SMALLEST_REPLY];
        let post = self.post;
        let step = post.hear(byte, &mut self.flash, &mut reply);
        self.go(step, &reply)
    }

    fn wait(&mut self) -> Result<(), Stop> {
        let mut reply = [0u8; SMALLEST_REPLY];
        let post = self.post;
        let step = post.wait(cable::SILENCE, &mut self.flash, &mut reply);
        self.go(step, &reply)
    }

    // After a step what has changed is told. What was written goes into the file first, so that what is acknowledged is there; then the
    // reply goes out.
    fn go(&mut self, step: PostStep, reply: &[u8]) -> Result<(), Stop> {
        let before = self.post;
        let after = step.post;
        self.post = after;
        if before.dropped != after.dropped {
            say::dropped(self.err);
        }
        let old = posts::view_of(before);
        let new = posts::view_of(after);
        say::change(self.err, old, new, posts::is_idle(after));
        if keep_packet(&mut self.file, old, new, &self.flash)? > 0 {
            self.log.packets = self.log.packets.wrapping_add(1);
        }
        self.answer(step.answer, reply)
    }

    fn answer(&mut self, answer: Answer, reply: &[u8]) -> Result<(), Stop> {
        match answer {
            Answer::Nothing => Ok(()),
            Answer::Sent(n) => self.send(octets::part(reply, 0, n)),
            Answer::Refused(refusal) => {
                say::refusal(self.err, refusal);
                Ok(())
            }
        }
    }

    fn send(&mut self, bytes: &[u8]) -> Result<(), Stop> {
        self.log.replies = self.log.replies.wrapping_add(1);
        if let Some(said) = reply::read_back(bytes) {
            say::refusing(self.err, said);
            self.log.refused = self.log.refused.wrapping_add(1);
        }
        cable::send(self.rt, &mut self.cable, bytes).map_err(Stop::Line)
    }
}

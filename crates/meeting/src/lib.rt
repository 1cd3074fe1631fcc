// A load over a simulated line: the two ends, the two lanes, and their turns. As in `console`, these calls are proved to be safe and to end, and
// what they do is tested.
#![tactic(auto)]

use host::{Answer, Session, Stepped};
use kinds::Kind;
use lanes::{Lane, Line, Noise};
use module_model::SMALLEST_REPLY;
use posts::{Caller, CallerStep, Ending, Post, PostStep, View, view_of};
use stages::{Rate, Same, Start};

// What may be under way on a lane, and the room that a message of the host has. Both are lent, and no Vec: `load` can't fail, so it takes
// no memory.
const LANE: usize = 8192;

const MESSAGE: usize = 2080;

// What a load leaves. Out goes to the board, back to the host. Packets counts those that the host knows to be accepted; forged counts those
// that the board has written with other bytes than the image's, since noise can pass every check of a frame.
#[derive(Clone, Copy)]
pub struct Met {
    pub out: Lane,
    pub back: Lane,
    pub packets: usize,
    pub forged: usize,
    pub resent: usize,
    pub board_dropped: usize,
    pub host_dropped: usize,
    pub ending: Ending,
}

// A load under way.
#[derive(Drop)]
struct Meeting<'a> {
    caller: Caller,
    post: Post,
    noise: Noise,
    image: &'a [u8],
    flash: &'a mut [u8],
    out: Line<'a>,
    back: Line<'a>,
    packets: usize,
    forged: usize,
    ending: Ending,
}

// Loads one image. The post and the noise go on from where they are.
pub fn load(post: &mut Post, noise: &mut Noise, kind: Kind, image: &[u8], flash: &mut [u8]) -> Met {
    let mut out_room = [0u8; LANE];
    let mut back_room = [0u8; LANE];
    let mut message = [0u8; MESSAGE];
    let opened = opening(kind, image, &mut message);
    // Made first. Tried inside the meeting's own expression: the borrow checker did not cover two lines there.
    let out = Line {
        lane: Lane::empty(),
        bytes: &mut out_room,
    };
    let back = Line {
        lane: Lane::empty(),
        bytes: &mut back_room,
    };
    let mut meeting = Meeting {
        caller: Caller::new(opened.session),
        post: Post {
            dropped: 0,
            ..*post
        },
        noise: *noise,
        image,
        flash,
        out,
        back,
        packets: 0,
        forged: 0,
        ending: posts::begun(),
    };
    meeting.says(opened.answer, &message);
    meeting.run();
    *post = meeting.post;
    *noise = meeting.noise;
    meeting.met()
}

// The host opens its session.
fn opening(kind: Kind, image: &[u8], message: &mut [u8]) -> Stepped {
    Session::opening(
        kinds::number_of(kind),
        image,
        Rate::R115200,
        commands::LARGEST_PACKET,
        Start::WithText,
        Same::GoOn,
        message,
    )
}

impl Meeting<'_> {
    // Turns until the load has ended. They are counted: a `while` needs a measure, the line has no end that a proof knows, and a loop that
    // may wait is not allowed here.
    fn run(&mut self) {
        for _ in 0..u64::MAX {
            if self.ending != Ending::UnderWay {
                break;
            }
            self.turn();
        }
    }

    // The next byte goes to the host, else to the board; where none is under way 100 ms pass for both.
    fn turn(&mut self) {
        if let Some(byte) = self.back.take() {
            self.host_hears(byte);
        } else if let Some(byte) = self.out.take() {
            self.board_hears(byte);
        } else {
            self.host_waits();
            self.board_waits();
        }
    }

    // This and what follows, as the board's two, differ in the call alone: a closure over the call would be no plainer.
    fn host_hears(&mut self, byte: u8) {
        let mut message = [0u8; MESSAGE];
        let step = self.caller.hear(byte, self.image, &mut message);
        self.host_goes(step, &message);
    }

    fn host_waits(&mut self) {
        let mut message = [0u8; MESSAGE];
        let step = self.caller.wait(100, self.image, &mut message);
        self.host_goes(step, &message);
    }

    // What the host's step leaves: its message goes out. An ended session knows no packets any more.
    fn host_goes(&mut self, step: CallerStep, message: &[u8]) {
        self.caller = step.caller;
        let accepted = self.caller.session().progress().accepted;
        self.packets = self.packets.max(accepted);
        self.says(step.answer, message);
    }

    fn says(&mut self, answer: Answer, message: &[u8]) {
        let said = octets::part(message, 0, posts::said(answer));
        self.out.lay(&mut self.noise, said);
        self.ending = posts::ended_by(answer);
    }

    fn board_hears(&mut self, byte: u8) {
        let mut reply = [0u8; SMALLEST_REPLY];
        let before = view_of(self.post);
        let step = self.post.hear(byte, self.flash, &mut reply);
        self.board_goes(step, &reply);
        if self.has_forged(before, view_of(self.post)) {
            self.forged = self.forged.wrapping_add(1);
        }
    }

    // Whether a step has written something else than the image's own bytes.
    fn has_forged(&self, before: View, after: View) -> bool {
        if after.written <= before.written {
            return false;
        }
        let size = after.written - before.written;
        let at = after.base.wrapping_add(before.written);
        octets::part(self.flash, at, size) != octets::part(self.image, before.written, size)
    }

    fn board_waits(&mut self) {
        let mut reply = [0u8; SMALLEST_REPLY];
        let step = self.post.wait(100, self.flash, &mut reply);
        self.board_goes(step, &reply);
    }

    // What the board's step leaves: its reply goes back.
    fn board_goes(&mut self, step: PostStep, reply: &[u8]) {
        self.post = step.post;
        let replied = octets::part(reply, 0, replied(step.answer));
        self.back.lay(&mut self.noise, replied);
    }

    fn met(&self) -> Met {
        Met {
            out: self.out.lane,
            back: self.back.lane,
            packets: self.packets,
            forged: self.forged,
            resent: self.caller.resent,
            board_dropped: self.post.dropped,
            host_dropped: self.caller.dropped,
            ending: self.ending,
        }
    }
}

// As kept_module's count_of, which stands with the calls for C: a simulated line has no need of those.
fn replied(answer: module::Answer) -> usize {
    match answer {
        module::Answer::Sent(n) => n,
        module::Answer::Nothing | module::Answer::Refused(_) => 0,
    }
}

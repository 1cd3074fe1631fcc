// One direction of a simulated line: bytes under way, and the noise that hits, loses and inserts some of them by a seed. At rate 0 the
// lane is clean, and its contract is an equation; what noise does is any bytes to those who hear it.
#![tactic(auto)]

mod noise;

ghost use Rattle.std.specs.Prelude.{◌≡◌, Some, None, cond, get_or};
ghost use Rattle.lanes.specs.Lanes.{way, lane_with, cleared_of, counted_of, lost_of, put_of, passed, is_under_way, taken_of, Cleanly, clean_of};

pub use noise::Noise;

// The bytes under way stand in a lent buffer from at to end, and in no queue: the contracts of `empty`, `lay` and `take` name both, as
// lane_with, clean_of and taken_of, and `lay` can't fail, so it takes no memory.
#[derive(Clone, Copy, Debug, Default, PartialEq, Eq)]
pub struct Lane {
    pub at: usize,
    pub end: usize,
    pub sent: usize,
    pub hit: usize,
    pub inserted: usize,
    pub lost: usize,
}

// A lane, and the buffer that its bytes stand in.
#[derive(Drop)]
pub struct Line<'a> {
    pub lane: Lane,
    pub bytes: &'a mut [u8],
}

impl Lane {
    // The same as `default`; it has the contract that docs/PROMISES.md lists.
    pub fn empty() -> Lane
        ensures { result ≡ lane_with 0 0 0 0 0 0 }
    {
        Lane::default()
    }

    // A lane that nothing is under way on begins anew at the front.
    #[tactic(auto, unfolding(crate::specs::Lanes::cleared_of))]
    fn clear(&mut self)
        ensures { self.new ≡ cleared_of self.old }
    {
        if self.end <= self.at {
            self.at = 0;
            self.end = 0;
        }
    }

    fn count(&mut self)
        ensures { self.new ≡ counted_of self.old }
    {
        self.sent = self.sent.wrapping_add(1);
    }

    fn lose(&mut self)
        ensures { self.new ≡ lost_of self.old }
    {
        self.lost = self.lost.wrapping_add(1);
    }
}

impl Line<'_> {
    // Sends bytes down the lane. What has been taken makes room; a byte without room is lost.
    pub fn lay(&mut self, noise: &mut Noise, bytes: &[u8])
        ensures clean { Cleanly noise.old.rate (way self.new.lane self.new.bytes.now) (clean_of self.old.lane bytes.now self.old.bytes.now) }
        ensures same_rate { noise.new.rate ≡ noise.old.rate }
    {
        self.lane.clear();
        for &byte in bytes {
            self.lay_byte(noise, byte);
        }
    }

    // Takes the next byte that is under way, if one is.
    pub fn take(&mut self) -> Option<u8>
        ensures byte { result ≡ cond (is_under_way self.old.lane) (Some (get_or self.old.bytes.now self.old.lane.at 0)) None }
        ensures lane { self.new.lane ≡ cond (is_under_way self.old.lane) (taken_of self.old.lane) self.old.lane }
        ensures same_bytes { self.new.bytes.now ≡ self.old.bytes.now }
    {
        let at = self.lane.at;
        if self.lane.end <= at {
            return None;
        }
        self.lane.at = at + 1;
        // By index. Tried with octets::byte_at, and with get and unwrap_or: the clause same_bytes did not close.
        Some(if at < self.bytes.len() {
            self.bytes[at]
        } else {
            0
        })
    }

    // One byte: by the rate it is left alone, hit, lost, or has a byte inserted before it.
    fn lay_byte(&mut self, noise: &mut Noise, byte: u8)
        ensures clean { Cleanly noise.old.rate (way self.new.lane self.new.bytes.now) (passed (way self.old.lane self.old.bytes.now) byte) }
        ensures same_rate { noise.new.rate ≡ noise.old.rate }
    {
        let draw = noise.drawn();
        self.lane.count();
        if noise.rate <= draw / 2048 % 100000 {
            self.put(byte);
            return;
        }
        let chance = noise.drawn();
        let random = (chance / 4096 % 256) as u8;
        // A draw is a number: its three outcomes have no names but those of the calls.
        match chance / 1048576 % 3 {
            0 => self.hit(byte, random),
            1 => self.lane.lose(),
            _ => self.insert(byte, random),
        }
    }

    // A hit byte is always another one.
    fn hit(&mut self, byte: u8, random: u8) {
        self.lane.hit = self.lane.hit.wrapping_add(1);
        self.put(if random == 0 {
            byte ^ 255
        } else {
            byte ^ random
        });
    }

    fn insert(&mut self, byte: u8, random: u8) {
        self.lane.inserted = self.lane.inserted.wrapping_add(1);
        self.put(random);
        self.put(byte);
    }

    #[tactic(auto, unfolding(crate::specs::Lanes::put_of))]
    fn put(&mut self, byte: u8)
        ensures { way self.new.lane self.new.bytes.now ≡ put_of self.old.lane byte self.old.bytes.now }
    {
        let end = self.lane.end;
        if end < self.bytes.len() {
            self.bytes[end] = byte;
            self.lane.end = end + 1;
        } else {
            self.lane.lose();
        }
    }
}

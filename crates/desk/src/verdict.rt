// What is said of a load when it has ended.
use crate::ending::show_ending;
use console::Refused;
use lanes::Lane;
use meeting::Met;
use posts::Ending;
use refusals::Refusal;

// The flash after a load and before it, and the image that should stand at the base.
#[derive(Clone, Copy)]
pub struct Judged<'a> {
    pub base: usize,
    pub image: &'a [u8],
    pub flash: &'a [u8],
    pub before: &'a [u8],
}

impl Judged<'_> {
    // Prints how the load ended, what befell the bytes, and how the flash is. Answers whether the range holds the image and all else is
    // as it was before.
    pub fn show(self, rt: &impl Print, met: &Met) -> bool {
        show_ending(rt, met);
        show_lane(rt, "board", met.out, met.board_dropped);
        show_lane(rt, "host", met.back, met.host_dropped);
        let holds = octets::part(self.flash, self.base, self.image.len()) == self.image;
        let is_untouched = self.is_untouched();
        show_flash(rt, holds, is_untouched);
        let is_right = holds && is_untouched;
        if met.ending == Ending::Done && !is_right {
            let _ = println!(rt;
                "  WRONG: done, but the flash is not as it should be; packets that noise has forged: {}",
                met.forged
            );
        }
        is_right
    }

    // Whether all before and behind the range is as it was.
    fn is_untouched(self) -> bool {
        let behind = self.base.wrapping_add(self.image.len());
        octets::part(self.flash, 0, self.base) == octets::part(self.before, 0, self.base)
            && octets::behind(self.flash, behind) == octets::behind(self.before, behind)
    }
}

// A file with a faulty block.
pub fn refused(rt: &impl Print, refusal: Refusal, place: usize) {
    let refused = Refused(refusal);
    let _ = println!(rt; "{refused}, at byte {place} of the file; nothing is loaded");
}

// The last words on a file.
pub fn sum_up(rt: &impl Print, done: usize, count: usize, is_right: bool) {
    let words = if !is_right {
        "FLASH WRONG"
    } else if done == count {
        "flash right"
    } else {
        "the file is not loaded"
    };
    let _ = println!(rt; "verdict: {done} of {count} blocks done, {words}");
}

fn show_lane(rt: &impl Print, end: &str, lane: Lane, dropped: usize) {
    let Lane {
        sent,
        hit,
        inserted,
        lost,
        ..
    } = lane;
    let _ = println!(rt;
        "  to the {end}: {sent} bytes sent, {hit} hit, {inserted} inserted, {lost} lost; {dropped} frames dropped"
    );
}

fn show_flash(rt: &impl Print, holds: bool, is_untouched: bool) {
    let range = if holds { "holds" } else { "does not hold" };
    let rest = if is_untouched {
        "all else is untouched"
    } else {
        "ALL ELSE IS NOT UNTOUCHED"
    };
    let _ = println!(rt; "  the range {range} the image; {rest}");
}

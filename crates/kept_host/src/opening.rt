// The opening of a session that is kept as bytes.
ghost use Rattle.std.specs.Prelude.{◌≡◌};
ghost use Rattle.kept_host.specs.Kept.{opened, opening_by, kept_opening};

use crate::answers::{numbered, told_of};
use crate::kept::{over, write};
use crate::record;
use host::{Answer, Session};
use refusals::Refusal;
use stages::{Rate, Same, Start};

// What an opening by numbers leaves: the session, and its answer by number, since 106 is no refusal of document 01.
#[derive(Clone, Copy)]
pub struct Begun {
    pub session: Session,
    pub answer: Answer<u8>,
}

// Opens a session: 2 and nothing written for bytes without room; else its record and its answer. The nine parameters are those of C's
// zrn_host_open, in its order. kept_caller's differs in a constant and one call: one over both would be no plainer.
#[tactic(auto, unfolding(crate::specs::Kept::kept_opening))]
pub fn open(
    state: &mut [u8],
    number: u16,
    image: &[u8],
    first: u8,
    wish: usize,
    start: u8,
    same: u8,
    out: &mut [u8],
    count: &mut usize,
) -> u8
    ensures { opened result count.new state.new out.new
        ≡ kept_opening state.old number first wish start same image.now out.old }
{
    *count = 0;
    if state.len() < record::RECORD_BYTES {
        return Refusal::NoRoom.number();
    }
    let begun = begin(number, image, first, wish, start, same, out);
    write(begun.session, state);
    let says = told_of(begun.answer);
    *count = says.count;
    says.number
}

// The opening by numbers: 106 and an ended session for a rate, start or same that is none. They come one by one, as C's zrn_host_open and
// zrn_caller_open take them.
pub fn begin(
    number: u16,
    image: &[u8],
    first: u8,
    wish: usize,
    start: u8,
    same: u8,
    out: &mut [u8],
) -> Begun
    ensures { record { begun = result; output = out.new }
        ≡ opening_by number first wish start same image.now out.old }
{
    let (Ok(first), Ok(start), Ok(same)) = (
        Rate::try_from(first),
        Start::try_from(start),
        Same::try_from(same),
    ) else {
        return Begun {
            session: over(image.len()),
            answer: Answer::Refused(flat::UNKNOWN),
        };
    };
    let stepped = Session::opening(number, image, first, wish, start, same, out);
    Begun {
        session: stepped.session,
        answer: numbered(stepped.answer),
    }
}

// How a load ended, in words.
use console::{Passed, Refused};
use meeting::Met;
use posts::Ending;
use std::fmt;

pub fn show_ending(rt: &impl Print, met: &Met) {
    let _ = println!(rt;
        "  {}; packets accepted {}, messages resent {}",
        Ended(met.ending),
        met.packets,
        met.resent
    );
}

// Done, or the number, its words and what was passed on.
#[derive(Clone, Copy)]
struct Ended(Ending);

impl fmt::Display for Ended {
    fn fmt<W: fmt::Write>(&self, f: &mut fmt::Formatter<W>) -> fmt::Result {
        match self.0 {
            Ending::UnderWay => f.write_str("not ended"),
            Ending::Done => f.write_str("done"),
            Ending::Refused {
                refusal,
                passed: None,
            } => write!(f, "{}", Refused(refusal)),
            Ending::Refused {
                refusal,
                passed: Some(passed),
            } => write!(f, "{}", Passed { refusal, passed }),
        }
    }
}

// What a load is opened with, and the stages that it goes through.
use kinds::Kind;

// The five rates, lowest first.
#[derive(Clone, Copy, Debug, PartialEq, Eq, PartialOrd, Ord)]
pub enum Rate {
    R9600,
    R19200,
    R38400,
    R57600,
    R115200,
}

// Whether the start text is sent.
#[derive(Clone, Copy, Debug, PartialEq, Eq)]
pub enum Start {
    WithText,
    AtOnce,
}

// What to do when the module reports the same version.
#[derive(Clone, Copy, Debug, PartialEq, Eq)]
pub enum Same {
    GoOn,
    Stop,
}

// What a session was opened with.
#[derive(Clone, Copy, Debug, PartialEq, Eq)]
pub struct Plan {
    pub kind: Kind,
    pub first: Rate,
    pub wish: usize,
    pub start: Start,
    pub same: Same,
}

// What the session waits for: the answer to the start text, a rate, the parameters, a packet; the notice; the answer to the restart.
// From the parameters on the line has the rate that was agreed, from the packets on the piece size is set.
#[derive(Clone, Copy, Debug, PartialEq, Eq)]
pub enum Stage {
    Text,
    Asking(Rate),
    Declaring(Rate),
    Sending {
        rate: Rate,
        size: usize,
        number: usize,
    },
    Noticing {
        rate: Rate,
        size: usize,
    },
    Restarting {
        rate: Rate,
        size: usize,
    },
}

// What a caller reads from a session.
// Packets accepted, and packets in all; none before the piece size is set.
#[derive(Clone, Copy, Debug, PartialEq, Eq)]
pub struct Progress {
    pub accepted: usize,
    pub total: usize,
}

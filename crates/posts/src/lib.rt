// Both ends of a line as programs keep them: a post that waits for the start text, and a caller that counts what it resends; the rate of
// a module's line, the piece that fits a rate, and how a load ended.
#![tactic(auto)]

mod agreed;
mod caller;
mod ending;
mod piece;
mod post;
mod view;

pub use agreed::agreed_rate;
pub use caller::{Caller, CallerStep};
pub use ending::{Ending, begun, ended_by, said};
pub use piece::piece_for;
pub use post::{Post, PostStep};
pub use view::{Stand, View, is_idle, view_of};

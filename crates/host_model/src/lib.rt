// The host's words and rules: what a load is opened with, its stages, what it waits for, and what is true of them. The only functions turn
// numbers into rates and wishes and back, and rates into words: an impl stands with its type.
#![tactic(auto)]

mod answers;
mod events;
mod nexts;
mod plan;
mod rate;
mod views;
mod waits;
mod wishes;

pub use answers::Move;
pub use events::{Answer, Event};
pub use nexts::Next;
pub use plan::{Plan, Rate, Same, Stage, Start};
pub use rate::UnknownRate;
pub use views::Progress;
pub use waits::{Phase, Wait};
pub use wishes::{UnknownSame, UnknownStart};

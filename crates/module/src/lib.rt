// The module's session over a lent flash: it takes frames and passing time, writes accepted packets where they belong, and
// answers with wire forms. Success is said only when every packet stands in the flash.
#![tactic(auto)]

mod open;
mod packets;
mod replies;
mod rules;
mod session;

pub use module_model::{Answer, Event, Phase, Pieces, Transfer};
pub use session::{Session, Stepped};

// The stages of a load: what the host waits for at each, which answers of the module fit, and where each leads.
#![tactic(auto)]

mod answers;
mod fits;

pub use answers::{frame_move, line_move};
pub use fits::stage_fits;
pub use host_model::{Move, Plan, Rate, Same, Stage, Start};
pub use rates::rate_number;

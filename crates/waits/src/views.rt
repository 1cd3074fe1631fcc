// What a caller reads from a waiting session.
ghost use Rattle.std.specs.Prelude.{◌≡◌};
ghost use Rattle.pieces.specs.Pieces.{count_of};
ghost use Rattle.host_model.specs.declared.plan.Stage.TheVariants.{Asking};
ghost use Rattle.host_model.specs.Views.{progress_of, stage_progress, message_rate};

use host_model::{Progress, Rate, Stage};

// Packets accepted and in all.
pub fn stage_progress(stage: Stage, image: usize) -> Progress
    ensures { result ≡ stage_progress stage image }
{
    match stage {
        Stage::Text | Stage::Asking(_) | Stage::Declaring(_) => counted(0, 0),
        Stage::Sending { size, number, .. } => {
            counted(pieces::before(number), pieces::count(image, size))
        }
        Stage::Noticing { size, .. } | Stage::Restarting { size, .. } => all(image, size),
    }
}

fn all(image: usize, size: usize) -> Progress
    ensures { result ≡ progress_of (count_of image size) (count_of image size) }
{
    let total = pieces::count(image, size);
    counted(total, total)
}

fn counted(accepted: usize, total: usize) -> Progress
    ensures { result ≡ progress_of accepted total }
{
    Progress { accepted, total }
}

// The rate that the line should have for a message that was resent so often.
pub fn message_rate(stage: Stage, repeats: u32) -> Option<Rate>
    ensures { result ≡ message_rate stage repeats }
{
    match stage {
        Stage::Text => None,
        Stage::Asking(rate) => asking_rate(rate, repeats),
        Stage::Declaring(rate)
        | Stage::Sending { rate, .. }
        | Stage::Noticing { rate, .. }
        | Stage::Restarting { rate, .. } => Some(rate),
    }
}

// A module whose answer was lost has the rate already: every other repeat goes out at it.
fn asking_rate(rate: Rate, repeats: u32) -> Option<Rate>
    ensures { result ≡ message_rate (Asking rate) repeats }
{
    (repeats % 2 == 1).then_some(rate)
}

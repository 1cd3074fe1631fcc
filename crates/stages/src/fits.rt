// Which numbers of a stage could arise.
ghost use Rattle.std.specs.Prelude.{◌≡◌};
ghost use Rattle.host_model.specs.Stages.{text_fits, size_fits, number_fits, stage_fits};

use commands::{LARGEST_PACKET, LARGEST_TOTAL};
use host_model::{Plan, Stage, Start};
use rates::rate_fits;

// Whether a stage of a load of an image of this length could arise. The start text is awaited only where it was sent.
pub fn stage_fits(plan: Plan, image: usize, stage: Stage) -> bool
    ensures { result ≡ stage_fits plan image stage }
{
    match stage {
        Stage::Text => text_fits(plan.start),
        Stage::Asking(rate) | Stage::Declaring(rate) => rate_fits(plan.first, rate),
        Stage::Sending { rate, size, number } => {
            rate_fits(plan.first, rate)
                && size_fits(image, plan.wish, size)
                && number_fits(image, size, number)
        }
        Stage::Noticing { rate, size } | Stage::Restarting { rate, size } => {
            rate_fits(plan.first, rate) && size_fits(image, plan.wish, size)
        }
    }
}

fn text_fits(start: Start) -> bool
    ensures { result ≡ text_fits start }
{
    start == Start::WithText
}

// A piece size is 1 to 1,024, not over the wish, and two bytes carry the number of pieces.
#[tactic(auto, unfolding(host_model::specs::Stages::size_fits))]
fn size_fits(image: usize, wish: usize, size: usize) -> bool
    ensures { result ≡ size_fits image wish size }
{
    (1..=LARGEST_PACKET).contains(&size)
        && size <= wish
        && pieces::count(image, size) <= LARGEST_TOTAL
}

// A packet number is 1 to the number of pieces.
#[tactic(auto, unfolding(host_model::specs::Stages::number_fits))]
fn number_fits(image: usize, size: usize, number: usize) -> bool
    ensures { result ≡ number_fits image size number }
{
    (1..=pieces::count(image, size)).contains(&number)
}

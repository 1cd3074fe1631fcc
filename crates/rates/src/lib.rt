// The five rates by number, and which of them a load may ask for. Calls under the names of the definitions, which edits hold, over From and
// the order that Rate derives.
#![tactic(auto)]

ghost use Rattle.std.specs.Prelude.{◌≡◌};
ghost use Rattle.host_model.specs.Stages.{number_of_rate, rate_fits};

use host_model::Rate;

// The number of a rate, as 0x01 carries it.
pub fn rate_number(rate: Rate) -> u8
    ensures { result ≡ number_of_rate rate }
{
    u8::from(rate)
}

// A rate that was asked for is not above the first.
#[tactic(auto, unfolding(host_model::specs::Stages::rate_fits))]
pub fn rate_fits(first: Rate, rate: Rate) -> bool
    ensures { result ≡ rate_fits first rate }
{
    rate <= first
}

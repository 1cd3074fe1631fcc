// The rate of a module's line: it changes with a reply that agrees to one.
ghost use Rattle.std.specs.Prelude.{◌≡◌};
ghost use Rattle.octets.specs.Octets.{same_bytes};
ghost use Rattle.posts.specs.Agreed.{agreement, agreed_in};

use host_model::Rate;

// Where the rate stands in the reply, behind head, Length, device and command.
const RATE_PLACE: usize = 5;

// An agreement is no longer than this; the library takes no memory, so it is written into an array.
const AGREEMENT_MOST: usize = 16;

// The rate that a reply agrees to; 0 for any other reply, since C's zrn_rate_agreed answers so and the contract promises agreed_in.
#[tactic(auto, unfolding(crate::specs::Agreed::agreed_in))]
pub fn agreed_rate(reply: &[u8]) -> u8
    ensures { result ≡ agreed_in reply.now }
{
    let rate = octets::byte_at(reply, RATE_PLACE);
    if Rate::try_from(rate).is_ok() && is_agreement(rate, reply) {
        return rate;
    }
    0
}

// Whether a reply is the one that agrees to a rate.
fn is_agreement(rate: u8, reply: &[u8]) -> bool
    ensures { result ≡ same_bytes (agreement rate) reply.now }
{
    let mut own = [0u8; AGREEMENT_MOST];
    let written = wire::write(commands::RATE, &[rate, commands::ACCEPTED], &mut own);
    written.is_ok_and(|n| octets::part(&own, 0, n) == reply)
}

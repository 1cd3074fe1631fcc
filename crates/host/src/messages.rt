// What the host sends at each stage. Without room for all of it nothing is written.
ghost use Rattle.std.specs.Prelude.{◌≡◌};
ghost use Rattle.commands.specs.Commands.{restart_frame};
ghost use Rattle.commands.specs.Commands.{start_text};
ghost use Rattle.host_model.specs.Messages.{goes_out, message_of, sent_of};
ghost use Rattle.host_model.specs.Small.{Small};

use host_model::{Plan, Stage};
use rates::rate_number;
use refusals::Refusal;

// The message of a stage.
#[tactic(auto, using(commands::specs::CommandsLaws::length_parameters, host_model::proofs::MessagesLaws::sent_frame, host_model::proofs::MessagesLaws::sent_packet, host_model::proofs::StagesLaws::small_same))]
pub(crate) fn send(plan: Plan, stage: Stage, image: &[u8], out: &mut [u8]) -> Result<usize, Refusal>
    requires { Small stage }
    ensures { record { answer = result; output = out.new }
        ≡ sent_of (message_of plan image.now stage) out.old }
{
    match stage {
        Stage::Text => send_text(out),
        Stage::Asking(rate) => commands::write_rate(rate_number(rate), out),
        Stage::Declaring(_) => commands::write_parameters(plan.kind, image.len(), out),
        Stage::Sending { size, number, .. } => commands::write_packet(image, size, number, out),
        Stage::Noticing { size, .. } => {
            commands::write_packet(image, size, pieces::count(image.len(), size), out)
        }
        Stage::Restarting { .. } => send_restart(out),
    }
}

#[tactic(auto, using(host_model::proofs::MessagesLaws::sent_frame))]
pub(crate) fn send_restart(out: &mut [u8]) -> Result<usize, Refusal>
    ensures { record { answer = result; output = out.new } ≡ sent_of (goes_out restart_frame) out.old }
{
    commands::write_restart(out)
}

fn send_text(out: &mut [u8]) -> Result<usize, Refusal>
    ensures { record { answer = result; output = out.new } ≡ sent_of start_text out.old }
{
    let text = &commands::START_TEXT;
    if out.len() < text.len() {
        return Err(Refusal::NoRoom);
    }
    octets::copy(text, out, 0);
    Ok(text.len())
}

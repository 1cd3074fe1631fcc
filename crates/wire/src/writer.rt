// Writing a frame: the content is built and measured first, so a refusal leaves the output as lent.
ghost use Rattle.std.specs.Prelude.{◌≡◌, ◌+◌, ◌≤◌, length};
ghost use Rattle.std.proofs.lemmas.List.Edits.{sets};
ghost use Rattle.octets.specs.Octets.{over};
ghost use Rattle.wire.specs.Escape.{escape_of};
ghost use Rattle.wire.specs.Frame.{longest_content, frame, wire_form};
ghost use Rattle.wire.specs.Write.{write_of};

use crate::content::{PAYLOAD_MOST, content_of};
use crate::escape::{ESCAPE, HEAD, TAIL, is_mark, second};
use refusals::Refusal;

// Writes the wire form of a frame into the output.
#[tactic(auto, using(crate::specs::WriteLaws::write_too_long, crate::specs::WriteLaws::write_no_room, crate::specs::WriteLaws::write_done), unfolding(crate::specs::Frame::wire_of))]
pub fn write(command: u8, payload: &[u8], out: &mut [u8]) -> Result<usize, Refusal>
    ensures { record { answer = result; output = out.new }
        ≡ write_of (frame command payload.now) out.old }
{
    let n = payload.len();
    if PAYLOAD_MOST < n {
        return Err(Refusal::PayloadTooLong);
    }
    let content = content_of(command, payload);
    let size = size_of(&content[..n + 5]);
    if out.len() < size {
        return Err(Refusal::NoRoom);
    }
    lay(&content[..n + 5], out);
    Ok(size)
}

// How long the wire form of content is.
fn size_of(content: &[u8]) -> usize
    requires { length content.now ≤ longest_content }
    ensures { result ≡ length (wire_form content.now) }
{
    2 + content.iter().map(|&byte| width(byte)).sum::<usize>()
}

// How many bytes a content byte takes on the wire.
#[tactic(auto, using(crate::specs::WriteLaws::width_mark, crate::specs::WriteLaws::width_plain))]
fn width(byte: u8) -> usize
    ensures { (result ≡ length (escape_of byte)) × (result ≤ 2) }
{
    if is_mark(byte) { 2 } else { 1 }
}

// The wire form of content over the front of an output that has room for it. The place goes along, since a byte takes one or two.
fn lay(content: &[u8], out: &mut [u8])
    requires { length (wire_form content.now) ≤ length out.old }
    ensures { out.new ≡ over (wire_form content.now) out.old }
{
    out[0] = HEAD;
    let mut at = 1;
    for &byte in content {
        at = lay_byte(byte, out, at);
    }
    out[at] = TAIL;
}

// One content byte on the wire from a place on; answers the next place.
fn lay_byte(byte: u8, out: &mut [u8], at: usize) -> usize
    requires { at + length (escape_of byte) ≤ length out.old }
    ensures { (result ≡ at + length (escape_of byte)) × (out.new ≡ sets out.old at (escape_of byte)) }
{
    if is_mark(byte) {
        out[at] = ESCAPE;
        out[at + 1] = second(byte);
        return at + 2;
    }
    out[at] = byte;
    at + 1
}

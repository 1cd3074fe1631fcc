// The content of a frame: Length, device, command, payload, check.
ghost use Rattle.std.specs.Prelude.{◌≡◌, ◌+◌, ◌≤◌, length, take};
ghost use Rattle.wire.specs.Frame.{longest_payload, longest_content, frame, content_of, is_content};

const DEVICE: u8 = 0x01;

pub const PAYLOAD_MOST: usize = 1030;

// Length, device, command and check, without a payload; and the longest content.
pub const CONTENT_LEAST: usize = 5;

pub const CONTENT_MOST: usize = 1035;

// The content of a frame at the front of the longest content's room: an array, as the library takes no memory.
pub(crate) fn content_of(command: u8, payload: &[u8]) -> [u8; CONTENT_MOST]
    requires { length payload.now ≤ longest_payload }
    ensures { (length result ≡ longest_content)
        × (take (length payload.now + 5) result ≡ content_of (frame command payload.now)) }
{
    let n = payload.len();
    let mut content = [0u8; CONTENT_MOST];
    octets::put_two(&mut content, 0, (n + 3) as u16);
    content[2] = DEVICE;
    content[3] = command;
    octets::copy(payload, &mut content, 4);
    content[n + 4] = octets::xor(&content[..n + 4]);
    content
}

// Whether content is that of a frame for our device.
#[tactic(auto, unfolding(crate::specs::Frame::is_content))]
pub fn is_content(content: &[u8]) -> bool
    ensures { result ≡ is_content content.now }
{
    let n = content.len();
    CONTENT_LEAST <= n
        && n <= CONTENT_MOST
        && usize::from(octets::two_at(content, 0)) == n - 2
        && octets::byte_at(content, 2) == DEVICE
        && octets::byte_at(content, n - 1) == octets::xor(&content[..n - 1])
}

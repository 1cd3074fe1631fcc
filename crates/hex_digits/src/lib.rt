// Bytes as the papers print them: two capital hex digits each, in a buffer that is lent. The programs print them by console's Hex, which goes
// through this.
#![tactic(auto)]

ghost use Rattle.std.specs.Prelude.{◌≡◌, ◌<◌};
ghost use Rattle.octets.specs.Octets.{Front};
ghost use Rattle.hex_digits.specs.Hex.{digit_of, show_of};

// Puts the digits of as many bytes as there is room for at the front of the output, and answers how many digits that is.
pub fn show(bytes: &[u8], out: &mut [u8]) -> usize
    ensures shown { record { count = result; output = out.new } ≡ show_of bytes.now out.old }
    ensures within { Front result out.new }
{
    let shown = octets::part(bytes, 0, out.len() / 2);
    // By index. Tried with chunks_exact_mut and zip: its contract does not say what the slice ends as.
    for (i, byte) in shown.iter().enumerate() {
        out[i * 2] = digit(byte / 16);
        out[i * 2 + 1] = digit(byte % 16);
    }
    shown.len() * 2
}

#[tactic(auto, unfolding(crate::specs::Hex::digit_of))]
fn digit(n: u8) -> u8
    requires { n < 16 }
    ensures { result ≡ digit_of n }
{
    if n < 10 { b'0' + n } else { b'A' + (n - 10) }
}

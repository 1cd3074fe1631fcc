// A text on a line: how much of it has been heard.
ghost use Rattle.std.specs.Prelude.{◌≡◌};
ghost use Rattle.host_end.specs.Text.{followed, stands};

// One more byte: it is the next of the text, or the first of a new one, or the text is not under way.
#[tactic(auto, unfolding(crate::specs::Text::stands, crate::specs::Text::followed))]
pub fn follow(text: &[u8], seen: usize, byte: u8) -> usize
    ensures { result ≡ followed text.now seen byte }
{
    if stands(text, seen, byte) {
        return seen + 1;
    }
    if stands(text, 0, byte) {
        return 1;
    }
    0
}

// Whether a byte is at a place of a text.
#[tactic(auto, unfolding(crate::specs::Text::stands))]
fn stands(text: &[u8], at: usize, byte: u8) -> bool
    ensures { result ≡ stands text.now at byte }
{
    text.get(at) == Some(&byte)
}

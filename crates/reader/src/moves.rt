// What one byte does to a reader, decided by its flags and its count alone.
ghost use Rattle.std.specs.Prelude.{◌≡◌};
ghost use Rattle.reader.specs.Moves.{content_move, follow_move, tail_move, inside_move, move_of};

// The byte is passed over; a frame opens; an escape is read; a content byte is put at the count; the frame is dropped; the tail ends
// the content, which is then judged.
#[derive(Clone, Copy)]
pub(crate) enum Move {
    Pass,
    Begin,
    Wait,
    Put(u8),
    Drop,
    End,
}

// The head always opens a frame. Outside a frame every other byte is passed over.
#[tactic(auto, unfolding(crate::specs::Moves::move_of))]
pub(crate) fn move_of(count: usize, opened: bool, pending: bool, byte: u8) -> Move
    ensures { result ≡ move_of count opened pending byte }
{
    if byte == wire::HEAD {
        return Move::Begin;
    }
    if opened {
        return inside(count, pending, byte);
    }
    Move::Pass
}

#[tactic(auto, unfolding(crate::specs::Moves::inside_move))]
fn inside(count: usize, pending: bool, byte: u8) -> Move
    ensures { result ≡ inside_move count pending byte }
{
    if byte == wire::TAIL {
        return tail(pending);
    }
    if pending {
        return follow(count, byte);
    }
    if byte == wire::ESCAPE {
        return Move::Wait;
    }
    content(count, byte)
}

// A pending escape at the tail is a bad one.
#[tactic(auto, unfolding(crate::specs::Moves::tail_move))]
fn tail(pending: bool) -> Move
    ensures { result ≡ tail_move pending }
{
    if pending {
        return Move::Drop;
    }
    Move::End
}

// The byte after the escape.
#[tactic(auto, unfolding(crate::specs::Moves::follow_move))]
fn follow(count: usize, byte: u8) -> Move
    ensures { result ≡ follow_move count byte }
{
    if wire::may_follow(byte) {
        return content(count, wire::original(byte));
    }
    Move::Drop
}

#[tactic(auto, unfolding(crate::specs::Moves::content_move))]
fn content(count: usize, byte: u8) -> Move
    ensures { result ≡ content_move count byte }
{
    if count < wire::CONTENT_MOST {
        return Move::Put(byte);
    }
    Move::Drop
}

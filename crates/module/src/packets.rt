// A packet that has come, and one of a transfer.
ghost use Rattle.std.specs.Prelude.{◌+◌, ◌≤◌};
ghost use Rattle.commands.specs.Commands.{largest_packet, largest_total};

use module_model::{Numbers, Pieces};

// The numbers of a packet that has come, and its data.
#[derive(Clone, Copy)]
pub(crate) struct Packet<'a> {
    pub(crate) numbers: Numbers,
    pub(crate) bytes: &'a [u8],
    ghost small: { numbers.size ≤ largest_packet },
}

// A packet of a transfer. Its number and its size are so small that its place in the flash is far below what a number can hold.
#[derive(Clone, Copy)]
pub(crate) struct Place {
    pub(crate) pieces: Pieces,
    pub(crate) number: usize,
    ghost one: { 1 ≤ number },
    ghost most: { number ≤ largest_total + 1 },
    ghost small: { pieces.size ≤ largest_packet },
}

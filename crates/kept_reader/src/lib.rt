// A reader that its caller keeps as bytes. Its record: count, opened and pending, four bytes each, then the store; whatever is added comes
// last. Answers are numbers, and command and count are lent outputs, as C's zrn_reader_step takes them.
#![tactic(auto)]

ghost use Rattle.std.specs.Prelude.{◌≡◌, ◌≤◌, length};
ghost use Rattle.octets.specs.Octets.{part_of};
ghost use Rattle.wire.specs.Frame.{longest_content};
ghost use Rattle.reader.specs.Reader.{number_in, command_in, count_in};
ghost use Rattle.kept_reader.specs.Kept.{
  reader_bytes,
  store_place,
  stands,
  reader_in,
  reader_kept,
  kept_new,
  kept_step,
};

use reader::{Heard, Reader};
use refusals::Refusal;
use wire::CONTENT_MOST;

// Where each number of the record stands, and how long the record is.
const COUNT: usize = 0;

const OPENED: usize = 4;

const PENDING: usize = 8;

const STORE: usize = 12;

// The payload of a frame stands in the store, behind Length, device and command.
pub const PAYLOAD_PLACE: usize = 16;

pub const READER_BYTES: usize = 1047;

const COUNT_MOST: u32 = CONTENT_MOST as u32;

// Makes a fresh reader; 2 where the buffer is too short for one.
#[tactic(auto, using(flat::proofs::Room::without_room, flat::proofs::Room::with_room, crate::proofs::KeptLaws::kept_over), unfolding(crate::specs::Kept::kept_new))]
pub fn new(state: &mut [u8]) -> u8
    ensures { record { answer = result; state = state.new } ≡ kept_new state.old }
{
    if state.len() < READER_BYTES {
        return Refusal::NoRoom.number();
    }
    keep(Reader::new(), state);
    flat::NOTHING
}

// Takes one byte; 2 where the buffer is too short for a reader.
#[tactic(auto, using(flat::proofs::Room::without_room, flat::proofs::Room::with_room, crate::proofs::KeptLaws::kept_over), unfolding(crate::specs::Kept::kept_step))]
pub fn step(state: &mut [u8], byte: u8, command: &mut u8, count: &mut usize) -> u8
    ensures { record { answer = result; command = command.new; count = count.new; state = state.new }
        ≡ kept_step state.old byte }
{
    if state.len() < READER_BYTES {
        *command = 0;
        *count = 0;
        return Refusal::NoRoom.number();
    }
    let stepped = reader_in(state).step(byte);
    keep(stepped.reader, state);
    *command = command_of(stepped.heard);
    *count = count_of(stepped.heard);
    number_of(stepped.heard)
}

// The reader in some bytes; a fresh one where they stand for none.
#[tactic(auto, using(crate::proofs::KeptLaws::stands_room), unfolding(crate::specs::Kept::reader_in))]
pub fn reader_in(state: &[u8]) -> Reader
    ensures { result ≡ reader_in state.now }
{
    if !stands_for_one(state) {
        return Reader::new();
    }
    Reader {
        store: store_in(state),
        count: octets::four_at(state, COUNT) as usize,
        opened: octets::four_at(state, OPENED) == 1,
        pending: octets::four_at(state, PENDING) == 1,
    }
}

// Whether there is room for a reader, and count and flags are those of one.
#[tactic(auto, unfolding(crate::specs::Kept::stands))]
fn stands_for_one(state: &[u8]) -> bool
    ensures { result ≡ stands state.now }
{
    state.len() >= READER_BYTES
        && octets::four_at(state, COUNT) <= COUNT_MOST
        && octets::four_at(state, OPENED) <= 1
        && octets::four_at(state, PENDING) <= 1
}

// The bytes of the store.
fn store_in(state: &[u8]) -> [u8; CONTENT_MOST]
    requires { reader_bytes ≤ length state.now }
    ensures { result ≡ part_of state.now store_place longest_content }
{
    octets::bytes_at(state, STORE)
}

// Puts a reader at the front of some bytes, if they have room for one.
#[tactic(auto, using(flat::proofs::Room::without_room, crate::proofs::KeptLaws::words_and_store, crate::proofs::KeptLaws::kept_over), unfolding(crate::specs::Kept::reader_kept, crate::specs::Kept::bytes_of))]
pub fn keep(reader: Reader, state: &mut [u8])
    ensures { state.new ≡ reader_kept reader state.old }
{
    if state.len() < READER_BYTES {
        return;
    }
    let words = [
        flat::low(reader.count),
        u32::from(reader.opened),
        u32::from(reader.pending),
    ];
    flat::store(&words, state);
    octets::copy(&reader.store, state, STORE);
}

fn number_of(heard: Heard) -> u8
    ensures { result ≡ number_in heard }
{
    match heard {
        Heard::Nothing => flat::NOTHING,
        Heard::Frame { .. } => flat::FRAME,
        Heard::Dropped => flat::DROPPED,
    }
}

fn command_of(heard: Heard) -> u8
    ensures { result ≡ command_in heard }
{
    match heard {
        Heard::Frame { command, .. } => command,
        Heard::Nothing | Heard::Dropped => 0,
    }
}

fn count_of(heard: Heard) -> usize
    ensures { result ≡ count_in heard }
{
    match heard {
        Heard::Frame { count, .. } => count,
        Heard::Nothing | Heard::Dropped => 0,
    }
}

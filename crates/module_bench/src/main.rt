// Plays document 01's story of the module's session, and prints each event, the reply as it goes on the wire, and the flash.
#![tactic(auto)]

mod flash;
mod play;
mod story;

// 0x8000 + 24: type 1 begins at 0x8000.
pub(crate) const FLASH: usize = 32792;

fn main(rt: HostRuntime) {
    let _ = println!(rt;
        "module_bench\n> command and payload of a frame, or time   < reply on the wire   = session"
    );
    // As an erased one. A flash has one size, so an array says it.
    let mut flash = [0xFFu8; FLASH];
    play::play(&rt, &mut flash);
}

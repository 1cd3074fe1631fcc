// Plays the host's session against scripted answers, and prints what is heard, what is sent, and how each load ends.
#![tactic(auto)]

mod play;
mod story;

// The most bytes that can be cut into pieces of 4: document 01's example has so many zeros. They stand in an array, as its size is known: a
// Vec would add a failure.
pub(crate) const ZEROS: usize = 262140;

fn main(rt: HostRuntime) {
    let _ = println!(rt;
        "host_bench\n> sent on the wire   < heard on the wire, or time   = session"
    );
    play::play(&rt, &[0u8; ZEROS]);
}

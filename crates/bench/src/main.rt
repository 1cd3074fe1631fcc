// Runs the bench examples of document 01 that are run and not proved.
#![tactic(auto)]

use console::Refused;

// A line that can't be written is let be, and the next one is tried.
fn main(rt: HostRuntime) {
    let _ = rt.println("bench");
    // Arrays of the sizes that the examples name: a Vec would add a failure.
    try_write(&rt, &[0x00; 1030], &mut [0u8; 2072]);
    try_write(&rt, &[0x00; 1031], &mut [0u8; 2072]);
    try_write(&rt, &[0xDB; 1030], &mut [0u8; 2072]);
    try_write(&rt, &[0xDB; 1030], &mut [0u8; 2066]);
}

// Writes a frame with the command of a packet, and says what came of it.
fn try_write(rt: &impl Print, payload: &[u8], out: &mut [u8]) {
    let length = payload.len();
    let room = out.len();
    let _ = print!(rt; "payload {length}, output {room}: ");
    let _ = match wire::write(commands::PACKET, payload, out) {
        Ok(count) => println!(rt; "{count} bytes written"),
        Err(refusal) => rt.println(Refused(refusal)),
    };
}

// The flash around the range of the transfer, and whether all of it holds what it should.
use console::{Row, Word};

// Type 1 begins here.
const BASE: usize = 0x8000;

// What the packets carry.
const IMAGE: [u8; 14] = [
    0x11, 0x12, 0x13, 0x14, 0x21, 0x22, 0x23, 0x24, 0xDB, 0xDC, 0xDE, 0x34, 0x41, 0x42,
];

// Prints the bytes from 0x7FFC to 0x8017, and judges the whole flash: so many bytes of the image stand in it, and nothing else.
pub(crate) fn show_flash(rt: &impl Print, count: usize, flash: &[u8]) {
    for (address, size) in [(0x7FFC_u32, 4), (0x8000, 16), (0x8010, 8)] {
        let row = Row {
            bytes: octets::part(flash, address as usize, size),
            places: 0,
        };
        let _ = println!(rt; "flash  {} {row}", Word(address));
    }
    judge(rt, octets::part(&IMAGE, 0, count), flash);
}

// Whether a flash is as it should be: in the range of the image, before it and behind it.
fn judge(rt: &impl Print, image: &[u8], flash: &[u8]) {
    let count = image.len();
    let before = octets::part(flash, 0, BASE);
    let behind = octets::behind(octets::behind(flash, BASE), count);
    let _ = println!(rt;
        "flash  {count} of 14 image bytes in place: {}; {} before them all FF: {}; {} behind all FF: {}",
        verdict(octets::part(flash, BASE, count) == image),
        before.len(),
        verdict(is_erased(before)),
        behind.len(),
        verdict(is_erased(behind))
    );
}

fn is_erased(bytes: &[u8]) -> bool {
    bytes.iter().all(|&byte| byte == 0xFF)
}

// A test's outcome; the one that nobody wants stands out.
fn verdict(holds: bool) -> &'static str {
    if holds { "yes" } else { "NO" }
}

// The flash in its file: only what a packet has changed is written.
use posts::View;
use std::io;
use std::io::{Seek, SeekFrom, Write};

// Why the file does not have what the flash has.
#[derive(Debug, Drop)]
pub enum Unkept {
    System(io::Error),
    // Only a part was written.
    Partly,
}

impl From<io::Error> for Unkept {
    fn from(error: io::Error) -> Unkept {
        Unkept::System(error)
    }
}

// An accepted packet has written from where the range ended before to where it ends now. Answers how many bytes that is.
pub fn keep_packet<F: Write + Seek>(
    file: &mut F,
    before: View,
    after: View,
    flash: &[u8],
) -> Result<usize, Unkept> {
    let count = after.written.saturating_sub(before.written);
    if count > 0 {
        let at = after.base.wrapping_add(before.written);
        write_at(file, octets::part(flash, at, count), at as u64)?;
    }
    Ok(count)
}

// A packet is small, so one call takes it whole or has failed. No write_all, which goes on after a short write: the board stops and says
// so.
fn write_at<F: Write + Seek>(file: &mut F, bytes: &[u8], at: u64) -> Result<(), Unkept> {
    file.seek(SeekFrom::Start(at))?;
    if file.write(bytes)? < bytes.len() {
        return Err(Unkept::Partly);
    }
    Ok(())
}

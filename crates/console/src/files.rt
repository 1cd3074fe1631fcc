// Whole files: read to their end, or written so that the name never stands for half of one. Names are bytes as the system gives them:
// one that is no text is shown as it is.
ghost use Rattle.std.specs.Prelude.{◌≡◌, ◌≤◌, ◌<◌, length, Err, IfOk, OnOk, IsUtf8, vec_len};
ghost use Rattle.console.specs.declared.files.FileError.TheVariants.{LongName};
ghost use Rattle.console.specs.declared.files.Unwritten.TheVariants.{Whole};
ghost use Rattle.console.specs.Console.{opened_by, Writable};

use crate::show::fail;
use std::alloc::AllocError;
use std::error::Error;
use std::fs::{File, OpenFile, OpenOptions};
use std::io::{Cursor, Read, Write};
use std::rt::Files;
use std::str::Utf8Error;
use std::{fmt, fs, io, str};

// The most bytes of a name.
pub const PATH: usize = 4096;
// A name that leaves no room for the part's is not written to.
const WRITTEN_PATH: usize = 4090;
// The most bytes of a file that is taken.
pub const FILE: usize = 524288;
// The most bytes of a flash, and so of any image.
pub const FLASH: usize = 262144;

// What is longer than any path opens nothing, as no name does. It stays a slice, and no Option: programs go on to open the empty name, and
// say why the system has none.
pub fn openable(path: &[u8]) -> &[u8]
    ensures { result.now ≡ opened_by path.now }
{
    if path.len() <= PATH { path } else { b"" }
}

// Why a file was not read or written.
#[derive(Debug, Drop)]
pub enum FileError {
    LongName,
    NoText,
    // It has more bytes than are taken; who asked knows how many these are.
    Larger,
    System(io::Error),
}

impl fmt::Display for FileError {
    fn fmt<W: fmt::Write>(&self, f: &mut fmt::Formatter<W>) -> fmt::Result {
        match self {
            FileError::LongName => f.write_str("the name is too long"),
            FileError::NoText => f.write_str("the name is no UTF-8 text"),
            FileError::Larger => f.write_str("the file is larger than any that is taken"),
            FileError::System(error) => write!(f, "{}", SystemWords(error)),
        }
    }
}

impl Error for FileError {}

impl From<io::Error> for FileError {
    fn from(error: io::Error) -> FileError {
        FileError::System(error)
    }
}

impl From<AllocError> for FileError {
    fn from(error: AllocError) -> FileError {
        FileError::System(io::Error::from(error))
    }
}

// Files go by names of text.
impl From<Utf8Error> for FileError {
    fn from(_error: Utf8Error) -> FileError {
        FileError::NoText
    }
}

// Why the system failed, in its words, which end where std puts the error's number behind them.
#[derive(Clone, Copy)]
pub struct SystemWords<'a>(pub &'a io::Error);

impl fmt::Display for SystemWords<'_> {
    fn fmt<W: fmt::Write>(&self, f: &mut fmt::Formatter<W>) -> fmt::Result {
        // A fixed room: a Display is given no allocator.
        let mut room = Cursor::new([0u8; 128]);
        // What the room has no place for is left out.
        let _ = write!(room, "{}", self.0);
        let text = str::from_utf8(room.get_ref()).unwrap_or("");
        match text.split_once(" (os error ") {
            Some((words, _)) => f.write_str(words),
            None => f.write_str(text.trim_end_matches('\0')),
        }
    }
}

// Reads a file of at most so many bytes.
pub fn read_file<R: Files + AllocGlobal>(
    rt: &R,
    path: &[u8],
    most: usize,
) -> Result<Vec<u8>, FileError>
    ensures most { IfOk result (λ bytes. vec_len bytes ≤ most) }
    ensures text { OnOk result (IsUtf8 path.now) }
{
    let file = File::open(rt, str::from_utf8(path)?)?;
    let mut bytes = Vec::new(rt.alloc());
    let mut taken = file.take((most as u64).saturating_add(1));
    taken.read_to_end(&mut bytes)?;
    if bytes.len() > most {
        return Err(FileError::Larger);
    }
    // A terminal may go on behind its end: one read more tells.
    if bytes.len() < most && taken.read(&mut [0u8; 1])? > 0 {
        return Err(FileError::Larger);
    }
    Ok(bytes)
}

// Opens a file to be read and written, its bytes as they are.
pub fn open_update<R: Files>(rt: &R, path: &[u8]) -> Result<R::File, FileError> {
    let name = str::from_utf8(path)?;
    Ok(OpenOptions::new().read(true).write(true).open(rt, name)?)
}

// Why a file was not written, by the name that says so: its own, or that of the part beside it.
#[derive(Debug, Drop)]
pub enum Unwritten {
    Whole(FileError),
    Part(FileError),
}

impl Unwritten {
    // Says so on standard error. The path goes there as bytes, and in no Display: it need not be text.
    // No contract: what it does is outside, and tested.
    pub fn tell(&self, err: &impl Print, path: &[u8]) {
        match self {
            Unwritten::Whole(why) => fail(err, path, why),
            Unwritten::Part(why) => {
                let _ = err.write_all(path);
                fail(err, b".part", why);
            }
        }
    }
}

// Writes under a name of its own beside the path, and takes the path's name only once all is written and kept. On an error the path is
// as it was.
pub fn write_file(
    rt: &(impl Files + AllocGlobal),
    path: &[u8],
    bytes: &[u8],
) -> Result<(), Unwritten>
    ensures ok { OnOk result (Writable path.now) }
    ensures long { 4090 < length path.now → result ≡ Err (Whole LongName) }
{
    if path.len() > WRITTEN_PATH {
        return Err(Unwritten::Whole(FileError::LongName));
    }
    let name = str::from_utf8(path).map_err(part_failed)?;
    let part = format!(in rt.alloc(); "{name}.part").map_err(part_failed)?;
    write_as(rt, &part, name, bytes)
}

fn write_as(rt: &impl Files, part: &str, name: &str, bytes: &[u8]) -> Result<(), Unwritten> {
    let file = File::create(rt, part).map_err(part_failed)?;
    let written = keep(file, bytes)
        .map_err(part_failed)
        .and_then(|()| fs::rename(rt, part, name).map_err(whole_failed));
    if written.is_err() {
        let _ = fs::remove_file(rt, part);
    }
    written
}

fn part_failed(why: impl Into<FileError>) -> Unwritten {
    Unwritten::Part(why.into())
}

fn whole_failed(why: impl Into<FileError>) -> Unwritten {
    Unwritten::Whole(why.into())
}

// All bytes, and then until they are kept.
fn keep<F: Write + OpenFile + Drop>(mut file: F, bytes: &[u8]) -> io::Result<()> {
    file.write_all(bytes)?;
    file.sync_all()
}

#[cfg(test)]
mod tests {
    use super::*;
    use std::test::Fail;

    const NAME: &str = "console_test.bin";

    #[test]
    fn what_is_written_is_read(rt: HostRuntime) -> Result<(), Fail> {
        let name = NAME.as_bytes();
        for bytes in [b"longer".as_slice(), b"", b"short"] {
            assert!(rt; write_file(&rt, name, bytes).is_ok());
            assert_eq!(rt; read_file(&rt, name, 6)?.as_slice(), bytes);
        }
        // As many bytes as are taken, and one more.
        assert!(rt; read_file(&rt, name, 5).is_ok());
        assert!(rt; matches!(read_file(&rt, name, 4), Err(FileError::Larger)));
        // The part has taken the name.
        assert!(rt; fs::metadata(&rt, "console_test.bin.part").is_err());
        fs::remove_file(&rt, NAME)?;
        assert!(rt; matches!(read_file(&rt, name, 5), Err(FileError::System(_))));
        Ok(())
    }

    #[test]
    fn what_fails_leaves_no_part(rt: HostRuntime) -> Result<(), Fail> {
        // A folder that is not there has no room for the part; one that is there does not give its name to a file.
        let missing = write_file(&rt, b"console_test_missing/a", b"bytes");
        assert!(rt; matches!(missing, Err(Unwritten::Part(FileError::System(_)))));
        fs::create_dir(&rt, "console_test_folder")?;
        let taken = write_file(&rt, b"console_test_folder", b"bytes");
        assert!(rt; matches!(taken, Err(Unwritten::Whole(FileError::System(_)))));
        assert!(rt; fs::metadata(&rt, "console_test_folder.part").is_err());
        fs::remove_dir(&rt, "console_test_folder")?;
        assert!(rt;
            matches!(
                write_file(&rt, b"\xff", b""),
                Err(Unwritten::Part(FileError::NoText))
            )
        );
        Ok(())
    }
}

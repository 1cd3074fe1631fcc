// The words that a program was started with, and numbers among them.
ghost use Rattle.std.specs.Prelude.{◌≡◌};
ghost use Rattle.std.specs.Str.{all_ascii_digits};
ghost use Rattle.console.specs.Console.{number_in};

use std::alloc::AllocError;
use std::env::FillError;
use std::rt::Env;
use std::str;

// The room that an argument is read into first.
const ROOM: usize = 256;
// More digits are no number that is taken.
const DIGITS: usize = 16;
// A number of which all but the last digit are more is not taken.
const LARGEST: u64 = 4294967295;

// The arguments, the program's own name first, but no more than so many: a program asks for one more than it takes, and sees that there
// are too many without room for all. They are bytes as the system gives them, since a name need not be text:
// std's env::args refuses one that is none, so they are asked for one by one. No contract: what it does is outside, and tested.
pub fn arguments<R: Env + AllocGlobal>(rt: &R, most: usize) -> Result<Vec<Vec<u8>>, AllocError> {
    let mut all = Vec::new(rt.alloc());
    for i in 0..most {
        match argument(rt, i, ROOM)? {
            Some(bytes) => all.push(bytes)?,
            None => break,
        }
    }
    Ok(all)
}

// The room is doubled until the argument fits or memory runs out.
fn argument<R: Env + AllocGlobal>(
    rt: &R,
    i: usize,
    room: usize,
) -> Result<Option<Vec<u8>>, AllocError> {
    let mut bytes = vec![in rt.alloc(); 0u8; room]?;
    match rt.arg(i, &mut bytes) {
        Ok(n) => {
            bytes.truncate(n);
            Ok(Some(bytes))
        }
        Err(FillError::NotPresent) => Ok(None),
        Err(FillError::TooLong) => {
            drop(bytes);
            argument(rt, i, room.saturating_mul(2).max(ROOM))
        }
    }
}

// A number in decimal digits; None where it is no such number or larger than any that is taken.
pub fn number_of(text: &[u8]) -> Option<u64>
    ensures { result ≡ number_in text.now }
{
    // Str's own parse takes a sign too.
    if text.len() > DIGITS || !are_digits(text) {
        return None;
    }
    let value = str::from_utf8(text).ok()?.parse::<u64>().ok()?;
    (value / 10 <= LARGEST).then_some(value)
}

fn are_digits(text: &[u8]) -> bool
    ensures { result ≡ all_ascii_digits text.now }
{
    text.iter().all(|byte| byte.is_ascii_digit())
}

#[cfg(test)]
mod tests {
    use super::*;
    use std::test::Fail;

    // A runtime that was started with these words.
    #[derive(Drop)]
    struct Given<'a>(&'a [&'a [u8]]);

    impl Env for Given<'_> {
        fn arg(&self, i: usize, buf: &mut [u8]) -> Result<usize, FillError> {
            let word = self.0.get(i).ok_or(FillError::NotPresent)?;
            let room = buf.get_mut(..word.len()).ok_or(FillError::TooLong)?;
            room.copy_from_slice(word);
            Ok(word.len())
        }

        fn var(&self, _name: &str, _buf: &mut [u8]) -> Result<usize, FillError> {
            Err(FillError::NotPresent)
        }

        fn var_at(&self, _i: usize, _buf: &mut [u8]) -> Result<usize, FillError> {
            Err(FillError::NotPresent)
        }
    }

    #[test]
    fn arguments_come_whole_and_in_order(rt: HostRuntime) -> Result<(), Fail> {
        // One fills the first room, and one is longer than it is doubled once.
        let given = [b"name".as_slice(), b"", &[0xFF; 256], &[b'a'; 600]];
        let words = arguments(&(Given(&given), rt.alloc()), 9)?;
        assert_eq!(rt; words.len(), given.len());
        for (word, wanted) in words.iter().zip(given) {
            assert_eq!(rt; word.as_slice(), wanted);
        }
        // Of the test's own.
        assert!(rt;
            arguments(&rt, 1)?
                .first()
                .is_some_and(|name| !name.is_empty())
        );
        // No more than are asked for.
        assert_eq!(rt; arguments(&(Given(&given), rt.alloc()), 3)?.len(), 3);
        Ok(())
    }

    #[test]
    fn numbers_are_digits_alone(rt: HostRuntime) -> Result<(), Fail> {
        assert_eq!(rt; number_of(b"0"), Some(0));
        assert_eq!(rt; number_of(b"65535"), Some(65535));
        assert_eq!(rt; number_of(b"0000000000000007"), Some(7));
        assert_eq!(rt; number_of(b"00000000000000007"), None);
        assert_eq!(rt; number_of(b""), None);
        assert_eq!(rt; number_of(b"+7"), None);
        assert_eq!(rt; number_of(b"-7"), None);
        assert_eq!(rt; number_of(b"7 "), None);
        assert_eq!(rt; number_of(b"0x7"), None);
        assert_eq!(rt; number_of(b"\xff"), None);
        Ok(())
    }

    #[test]
    fn the_largest_number(rt: HostRuntime) -> Result<(), Fail> {
        assert_eq!(rt; number_of(b"4294967295"), Some(4294967295));
        assert_eq!(rt; number_of(b"42949672959"), Some(42949672959));
        assert_eq!(rt; number_of(b"42949672960"), None);
        assert_eq!(rt; number_of(b"9999999999999999"), None);
        Ok(())
    }
}

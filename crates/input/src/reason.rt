// Why a file is not there whole.
ghost use Rattle.std.specs.Prelude.{◌≤◌};

use std::env::FillError;
use std::fmt::Write;
use std::str::Utf8Error;
use std::{fmt, io};

// C's numbers of what is wrong with an argument that names a file
const MISSING: i32 = 22;

const TOO_LONG: i32 = 36;

const NOT_TEXT: i32 = 84;

#[derive(Drop)]
pub enum Unread {
    // it has more bytes than the buffer, which has so many
    Longer(usize),
    System(io::Error),
}

impl From<io::Error> for Unread {
    fn from(e: io::Error) -> Unread {
        Unread::System(e)
    }
}

impl From<FillError> for Unread {
    fn from(why: FillError) -> Unread {
        match why {
            FillError::NotPresent => Unread::of_system(MISSING),
            FillError::TooLong => Unread::of_system(TOO_LONG),
        }
    }
}

impl From<Utf8Error> for Unread {
    fn from(_why: Utf8Error) -> Unread {
        Unread::of_system(NOT_TEXT)
    }
}

impl Unread {
    fn of_system(code: i32) -> Unread {
        Unread::System(io::Error::from_raw_os_error(code))
    }
}

// What the system says of an error stands as C's perror has it.
impl fmt::Display for Unread {
    fn fmt<W: fmt::Write>(&self, f: &mut fmt::Formatter<W>) -> fmt::Result {
        match self {
            Unread::Longer(most) => write!(f, "longer than {most} bytes"),
            Unread::System(e) => f.write_str(Text::of(e).words()),
        }
    }
}

const ROOM: usize = 256;

// A buffer for the text of an error: what does not fit is left out. Nothing is allocated here, so that the length stands beside the bytes.
#[derive(Drop)]
struct Text {
    bytes: [u8; ROOM],
    length: usize,
    ghost within: { length ≤ 256 },
}

impl fmt::Write for Text {
    fn write_str(&mut self, s: &str) -> fmt::Result {
        let at = self.length;
        let n = s.len().min(ROOM - at);
        self.bytes[at..at + n].copy_from_slice(&s.as_bytes()[..n]);
        self.length = at + n;
        Ok(())
    }
}

impl Text {
    fn of(e: &io::Error) -> Text {
        let mut text = Text {
            bytes: [0; ROOM],
            length: 0,
        };
        let _ = write!(text, "{e}");
        text
    }

    // the text without the number that std puts behind it
    fn words(&self) -> &str {
        let all = std::str::from_utf8(&self.bytes[..self.length]).unwrap_or("");
        all.split_once(" (os error ")
            .map_or(all, |(words, _)| words)
    }
}

// Scripts: commands of a letter and a body, numbers little-endian; second/README.md describes them.
ghost use Rattle.std.specs.Prelude.{◌≤◌};

use pieces::{Ending, HELD, ReaderState};
use std::io::{self, ErrorKind};

// A letter, and the longest body: a piece's two places.
pub(crate) const LONGEST: usize = 9;

// A state's ending, count and held bytes.
pub(crate) const STATE: usize = 2 + HELD;

#[derive(Clone, Copy)]
pub(crate) enum Command {
    // a log of so many bytes, which come behind the command
    Log(u32),
    New,
    // a state, which comes behind the command
    State,
    Piece { from: u32, to: u32 },
    Over,
}

// Why a script stops before its end: it is cut or says what cannot be done, or its bytes do not come.
#[derive(Debug, Drop)]
pub(crate) enum ScriptError {
    Bad,
    Io(io::Error),
}

// A log that is cut shows as an input that ends too early.
impl From<io::Error> for ScriptError {
    fn from(e: io::Error) -> Self {
        match e.kind() {
            ErrorKind::UnexpectedEof => Self::Bad,
            _ => Self::Io(e),
        }
    }
}

// The bytes at a place of what is here; none where it ends before.
fn bytes<const N: usize>(here: &[u8], at: usize) -> Option<[u8; N]>
    requires { at ≤ 5 }
{
    <[u8; N]>::try_from(here.get(at..at + N)?).ok()
}

fn word(here: &[u8], at: usize) -> Option<u32>
    requires { at ≤ 5 }
{
    Some(u32::from_le_bytes(bytes(here, at)?))
}

// Stays: the endings' numbers and the letters below are the script's alone, and each is matched once, so that a TryFrom is no plainer.
pub(crate) fn state(here: &[u8]) -> Option<ReaderState> {
    let [code, count] = bytes::<2>(here, 0)?;
    let ending = match code {
        0 => Ending::Open,
        1 => Ending::End,
        2 => Ending::Bad,
        3 => Ending::Cut,
        _ => return None,
    };
    Some(ReaderState {
        ending,
        count: usize::from(count),
        held: bytes(here, 2)?,
    })
}

// The command that these bytes begin with, and its length; none where they are cut or it is no command.
pub(crate) fn next(here: &[u8]) -> Option<(Command, usize)> {
    match here.first()? {
        b'L' => Some((Command::Log(word(here, 1)?), 5)),
        b'N' => Some((Command::New, 1)),
        b'S' => Some((Command::State, 1)),
        b'P' => {
            let from = word(here, 1)?;
            let to = word(here, 5)?;
            Some((Command::Piece { from, to }, LONGEST))
        }
        b'O' => Some((Command::Over, 1)),
        _ => None,
    }
}

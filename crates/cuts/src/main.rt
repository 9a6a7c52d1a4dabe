// Cuts: runs a script of pieces on the reader of logs, and prints what came of each. It stands on pieces.
#![tactic(auto)]

ghost use Rattle.std.specs.Prelude.{◌≤◌, length};
ghost use Rattle.cuts.specs.declared.TheConstants.{LONGEST_LOG};

mod buffers;
mod print;
mod script;
mod sum;

use buffers::{Reader, Writer};
use pieces::{Fed, ReaderState, Told, feed, over, start};
use script::{Command, LONGEST, STATE, ScriptError};
use std::io::{self, Read, Write};
use sum::Seen;

// A longer log is not taken.
const LONGEST_LOG: usize = 131072;

// More commands than this are not read.
const COMMANDS: usize = 1_000_000_000_000;

// What a script runs on: the reader, and a log, which has the first bytes of its room.
// Stays: the room with a length beside it, by the rule of fixed memory.
#[derive(Drop)]
struct Machine {
    reader: ReaderState,
    log: [u8; LONGEST_LOG],
    len: usize,
    ghost fits: { len ≤ LONGEST_LOG },
}

impl Machine {
    fn fresh() -> Self {
        Self {
            reader: start(),
            log: [0; LONGEST_LOG],
            len: 0,
        }
    }

    // Does what a command says, and prints what it prints.
    fn obey(
        &mut self,
        command: Command,
        input: &mut Reader<impl Read>,
        out: &mut impl Write,
    ) -> Result<(), ScriptError> {
        let (seen, told) = match command {
            Command::Log(n) => {
                let len = n as usize;
                let room = self.log.get_mut(..len).ok_or(ScriptError::Bad)?;
                input.read_exact(room)?;
                self.len = len;
                return Ok(());
            }
            Command::New => {
                self.reader = start();
                return Ok(());
            }
            Command::State => {
                input.fill(STATE)?;
                self.reader = script::state(input.here()).ok_or(ScriptError::Bad)?;
                input.pass(STATE);
                return Ok(());
            }
            Command::Piece { from, to } => {
                let log = &self.log[..self.len];
                let piece = log.get(from as usize..to as usize).ok_or(ScriptError::Bad)?;
                fed(self.reader, piece)
            }
            Command::Over => (Seen::default(), over(self.reader)),
        };
        print::line(out, seen, told)?;
        self.reader = told.state;
        Ok(())
    }
}

// The events of a piece, and how the log stands once there are no more.
fn fed(mut reader: ReaderState, piece: &[u8]) -> (Seen, Told)
    ensures { result.0.events ≤ length piece.now }
{
    let mut seen = Seen::default();
    let mut place = 0;
    loop {
        let Fed { found, state, at } = feed(reader, piece, place);
        match found {
            Ok(event) => seen.add(event),
            Err(ending) => return (seen, Told { ending, state }),
        }
        reader = state;
        place = at;
    }
}

fn play(input: &mut Reader<impl Read>, out: &mut impl Write) -> Result<(), ScriptError> {
    let mut machine = Machine::fresh();
    for _ in 0..COMMANDS {
        input.fill(LONGEST)?;
        if input.here().is_empty() {
            break;
        }
        let (command, length) = script::next(input.here()).ok_or(ScriptError::Bad)?;
        input.pass(length);
        machine.obey(command, input, out)?;
    }
    Ok(())
}

fn main(rt: HostRuntime) -> io::Result<()> {
    let mut input = Reader::new(rt.stdin());
    let mut out = Writer::new(io::writer(&rt));
    match play(&mut input, &mut out) {
        Ok(()) => {}
        Err(ScriptError::Bad) => out.write_all(b"bad script\n")?,
        Err(ScriptError::Io(e)) => return Err(e),
    }
    out.flush()
}

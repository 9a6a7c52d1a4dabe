// Replay: reads a log from standard input, piece by piece, and prints what each event was answered. It stands on playback.
#![tactic(auto)]

ghost use Rattle.std.specs.Prelude.{length};
ghost use Rattle.playback.specs.Playback.{Within};

use layout::{TABLES_SIZE, WORD_SIZE};
use pieces::{Ending, start};
use playback::{finish, play};
use std::io::{self, Read};
use tables::WORDS;
use text::LINE_ROOM;
use vradomil::event::vradomil_fresh;

const PIECE: usize = 32768;

// Room for the text of a piece: an event takes a byte of it at least, and a refusal comes behind them.
const TEXT: usize = LINE_ROOM * (PIECE + 1);

// The lines that were written, or none where there was no room for them.
fn show(rt: &impl Print, text: Option<usize>, out: &[u8]) -> io::Result<()>
    requires { Within text (length out.now) }
{
    match text {
        Some(k) => rt.write_all(&out[..k]),
        None => Ok(()),
    }
}

fn main(rt: HostRuntime) -> io::Result<()> {
    let mut tables = [0; TABLES_SIZE];
    vradomil_fresh(&mut tables);
    let mut words = [0; WORD_SIZE * WORDS];
    let mut piece = [0; PIECE];
    let mut out = [0; TEXT];
    let mut reader = start();
    for _ in 0..u64::MAX {
        let n = rt.stdin().read(&mut piece)?;
        let played = play(reader, &piece[..n], &mut tables, &mut words, &mut out);
        show(&rt, played.text, &out)?;
        reader = played.reader;
        // After a refusal nothing more is read: whoever waits at a slow link hears of it at once.
        if n == 0 || reader.ending != Ending::Open {
            break;
        }
    }
    show(&rt, finish(reader, &mut out).text, &out)
}

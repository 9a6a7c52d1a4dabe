// What a script prints: a line for each piece and each end of a log.
ghost use Rattle.std.specs.Prelude.{◌+◌, ◌<◌, ◌≤◌, ◌*◌, length};
ghost use Rattle.cuts.specs.declared.print.TheConstants.{DIGITS, LINE};

use crate::sum::Seen;
use pieces::{Ending, HELD, Told};
use std::io::{self, Write};

// The places of a line: the count of events ends at DIGITS, the sum at SUM, and behind the answer comes the state with the line's end.
const DIGITS: usize = 20;

const SUM: usize = DIGITS + 1 + 16;

const STATE: usize = 2 * (2 + HELD) + 1;

// No line is longer: an answer has four letters at most.
const LINE: usize = SUM + 1 + 4 + 1 + STATE;

fn answer(ending: Ending) -> &'static [u8]
    ensures { length result.now ≤ 4 }
{
    match ending {
        Ending::Open => b"more",
        Ending::End => b"end",
        Ending::Bad => b"-71",
        Ending::Cut => b"-61",
    }
}

fn digit(d: u8) -> u8
    requires { d < 16 }
{
    if d < 10 { b'0' + d } else { b'a' - 10 + d }
}

// Each byte's two digits, and line ends behind them.
fn hex<const N: usize, const M: usize>(bytes: [u8; N]) -> [u8; M]
    requires { 2 * N ≤ M }
{
    let mut digits = [b'\n'; M];
    for (i, &byte) in bytes.iter().enumerate() {
        digits[2 * i] = digit(byte / 16);
        digits[2 * i + 1] = digit(byte % 16);
    }
    digits
}

// Puts a number's digits in front of a place, and says where they begin.
fn put_number(line: &mut [u8; LINE], number: u64) -> usize
    ensures { result ≤ DIGITS }
{
    let mut rest = number;
    for i in (0..DIGITS).rev() {
        line[i] = digit((rest % 10) as u8);
        rest /= 10;
        if rest == 0 {
            return i;
        }
    }
    0
}

fn put(line: &mut [u8; LINE], at: usize, part: &[u8])
    requires { at + length part.now ≤ LINE }
{
    line[at..at + part.len()].copy_from_slice(part);
}

// The events, their sum, the answer and the state as a script has it: how the log ended, the count and the held bytes.
// Stays: the digits are put by hand into one line, for by `write!` a script of many lines takes up to seven times as long.
#[inline(always)]
pub(crate) fn line(out: &mut impl Write, seen: Seen, told: Told) -> io::Result<()> {
    let Told { ending, state } = told;
    let mut bytes = [0; 2 + HELD];
    bytes[0] = state.ending as u8;
    bytes[1] = (state.count % 256) as u8;
    bytes[2..].copy_from_slice(&state.held);
    let answer = answer(ending);
    let at = SUM + 1 + answer.len() + 1;
    let mut line = [b' '; LINE];
    let from = put_number(&mut line, seen.events);
    put(&mut line, DIGITS + 1, &hex::<8, 16>(seen.sum.to_be_bytes()));
    put(&mut line, SUM + 1, answer);
    put(&mut line, at, &hex::<33, STATE>(bytes));
    out.write_all(&line[from..at + STATE])
}

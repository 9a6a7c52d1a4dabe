// Scripts: records of a kind byte and a body, numbers little-endian; second/README.md describes them.
ghost use Rattle.std.specs.Prelude.{◌≤◌};
ghost use Rattle.edges.specs.declared.script.TheConstants.{BODY};

use crate::poke::Poke;
use rules::event::{Call, Event};
use std::io::{self, Read};

// What a record asks for.
#[derive(Clone, Copy, Debug, PartialEq, Eq)]
pub(crate) enum Record {
    Event(Event),
    Fresh,
    Lend(u32),
    Poke(Poke),
    Word { process: u8, address: u32 },
    Dump,
    // A byte that is no kind: it is passed over.
    Unknown,
}

// The longest body: a call's.
const BODY: usize = 31;

// How many bytes stand behind a kind.
fn length(kind: u8) -> usize
    ensures { result ≤ BODY }
{
    match kind {
        1 => BODY,
        2 => 9,
        3 => 8,
        4 => 2,
        5 => 3,
        b'M' => 4,
        b'P' => 10,
        b'Q' => 1,
        b'W' => 5,
        _ => 0,
    }
}

// The next n bytes of the script, with zeros behind them, and for those that it no longer has.
// Stays: they are asked for together, for by a read of its own for each byte a script of calls takes more than twice as long; and the place is
// raised by hand, for a read gives as many bytes as it has.
fn load(input: &mut impl Read, n: usize) -> io::Result<[u8; BODY]>
    requires { n ≤ BODY }
{
    let mut all = [0; BODY];
    let mut at = 0;
    while at < n {
        match input.read(&mut all[at..n])? {
            0 => break,
            got => at += got,
        }
    }
    Ok(all)
}

fn bytes<const N: usize>(body: &mut &[u8]) -> io::Result<[u8; N]> {
    let mut all = [0; N];
    body.read_exact(&mut all)?;
    Ok(all)
}

// Stays: here and in the script of cuts a line for each width, for the library has no trait of `from_le_bytes`.
fn byte(body: &mut &[u8]) -> io::Result<u8> {
    Ok(u8::from_le_bytes(bytes(body)?))
}

fn word(body: &mut &[u8]) -> io::Result<u32> {
    Ok(u32::from_le_bytes(bytes(body)?))
}

fn long(body: &mut &[u8]) -> io::Result<u64> {
    Ok(u64::from_le_bytes(bytes(body)?))
}

fn call(body: &mut &[u8]) -> io::Result<Call> {
    Ok(Call {
        process: byte(body)?,
        index: byte(body)?,
        op: word(body)?,
        uaddr: word(body)?,
        val: word(body)?,
        flag: byte(body)?,
        timeout: long(body)?,
        uaddr2: word(body)?,
        val3: word(body)?,
    })
}

// The next record, of which kinds 1 to 5 are as in a log; none at the end of the script, or at a byte 0, which ends it too.
// Stays: the kinds are matched as bytes, once; an enum of them would be made by one match and taken apart by another.
pub(crate) fn next(input: &mut impl Read) -> io::Result<Option<Record>> {
    let [kind, ..] = load(input, 1)?;
    let all = load(input, length(kind))?;
    let body = &mut &all[..];
    let record = match kind {
        0 => return Ok(None),
        1 => Record::Event(Event::Call(call(body)?)),
        2 => Record::Event(Event::Store {
            process: byte(body)?,
            address: word(body)?,
            value: word(body)?,
        }),
        3 => Record::Event(Event::Clock { time: long(body)? }),
        4 => Record::Event(Event::Interrupt {
            process: byte(body)?,
            index: byte(body)?,
        }),
        5 => Record::Event(Event::SetPriority {
            process: byte(body)?,
            index: byte(body)?,
            priority: byte(body)?,
        }),
        b'Q' => Record::Event(Event::Query {
            process: byte(body)?,
        }),
        b'F' => Record::Fresh,
        b'M' => Record::Lend(word(body)?),
        b'P' => Record::Poke(Poke {
            field: byte(body)?,
            index: byte(body)?,
            value: long(body)?,
        }),
        b'W' => Record::Word {
            process: byte(body)?,
            address: word(body)?,
        },
        b'D' => Record::Dump,
        _ => Record::Unknown,
    };
    Ok(Some(record))
}

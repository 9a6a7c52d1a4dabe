// Commands: what an op stands for, and what a call's arguments mean to its command. It stands on rules.
#![tactic(auto)]

ghost use Rattle.std.specs.Prelude.{◌≡◌, cond, ◌+◌, ◌-◌, min};
ghost use Rattle.tables.specs.Sizes.{time_limit, match_any};
ghost use Rattle.rules.specs.Commands.{command_of, not_implemented, uses};
ghost use Rattle.rules.specs.Calls.{second_cap, timeout_given};
ghost use Rattle.commands.specs.Places.{thread_place, word_place};

use rules::event::{Call, Command, Uses};
use tables::{PROCESSES, State, WORD_BYTES};

const PRIVATE_BIT: u32 = 128;

const CLOCK_BIT: u32 = 256;

// Every number of 32 bits is below this.
const WORD_LIMIT: u64 = 1 << 32;

// FUTEX_BITSET_MATCH_ANY.
const MATCH_ANY: u32 = u32::MAX;

#[tactic(auto, unfolding(rules::specs::Commands::command_of))]
fn command_of(op: u32) -> Command
    ensures { result ≡ command_of op }
{
    let private = op / PRIVATE_BIT % 2;
    let clock = op / CLOCK_BIT % 2;
    Command::from(op - PRIVATE_BIT * private - CLOCK_BIT * clock)
}

pub fn uses_by(op: u32) -> Uses
    ensures { result ≡ uses (command_of op) }
{
    uses(command_of(op))
}

#[tactic(auto, unfolding(rules::specs::Commands::not_implemented))]
pub fn not_implemented(op: u32) -> bool
    ensures { result ≡ not_implemented op }
{
    matches!(command_of(op), Command::Unknown) | (op / CLOCK_BIT % 2 == 1)
}

fn row(cap: bool, second: bool, mask: bool, compare: bool, deadline: bool, moves: bool) -> Uses
    ensures { result ≡ record { cap = cap; second = second; mask = mask; compare = compare; deadline = deadline; moves = moves } }
{
    Uses {
        cap,
        second,
        mask,
        compare,
        deadline,
        moves,
    }
}

// Which arguments the command uses: cap, second, mask, compare, deadline, moves.
// Stays: a line for each command, as in the table of rules/specs/Commands.antt; with the names of the fields each takes up to six.
fn uses(k: Command) -> Uses
    ensures { result ≡ uses k }
{
    match k {
        Command::Wait => row(false, false, false, true, true, false),
        Command::WaitBitset => row(false, false, true, true, true, false),
        Command::Wake => row(true, false, false, false, false, false),
        Command::WakeBitset => row(true, false, true, false, false, false),
        Command::Requeue => row(true, true, false, false, false, true),
        Command::CmpRequeue => row(true, true, false, true, false, true),
        Command::WakeOp => row(true, true, false, false, false, false),
        Command::Unknown => row(false, false, false, false, false, false),
    }
}

pub fn second_cap(c: Call) -> u32
    ensures { result ≡ second_cap c }
{
    (c.timeout % WORD_LIMIT) as u32
}

pub fn timeout_given(c: Call) -> bool
    ensures { result ≡ timeout_given c }
{
    c.flag != 0
}

// The deadline of a wait: absolute where it has a mask, else relative, and at most the last time.
pub fn deadline_of(c: Call, absolute: bool, now: u64) -> u64
    ensures { result ≡ cond absolute c.timeout (min (now + c.timeout) (time_limit - 1)) }
{
    if absolute {
        c.timeout
    } else {
        now.saturating_add(c.timeout)
    }
}

// The mask of a sleeper.
pub fn mask_of(c: Call, given: bool) -> u32
    ensures { result ≡ cond given c.val3 match_any }
{
    if given { c.val3 } else { MATCH_ANY }
}

// The record of a thread; of one that does not exist, that of another.
// Stays: process and index are two numbers, here and wherever they stand side by side, as in Call, Event, the C interface and the theorems
// about them; a struct of both would be made anew at each call.
pub fn thread_index(process: u8, index: u8) -> usize
    ensures { result ≡ thread_place process index }
{
    usize::from(process) % PROCESSES * State::THREADS_PER_PROCESS
        + usize::from(index) % State::THREADS_PER_PROCESS
}

// The place of a word; of an address that has none, that of another.
pub fn word_index(process: u8, address: u32) -> usize
    ensures { result ≡ word_place process address }
{
    usize::from(process) % PROCESSES * State::WORDS_PER_PROCESS
        + ((address / WORD_BYTES) as usize) % State::WORDS_PER_PROCESS
}

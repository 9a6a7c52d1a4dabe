// Other events: stores, clock events, interrupts, panel queries and set priorities; and fresh tables. The entry point of each gives the
// answer as a number.
// Stays: kernel has these events by value; what refuses them is shared (verdicts), and the rest is a read or a store of bytes here and of a
// field there. Tables, words and the numbers beside them are the parameters of the C interface.
ghost use Rattle.std.specs.Prelude.{◌≡◌, [], ◌≤◌, ◌<◌, IfOk};
ghost use Rattle.tables.specs.Sizes.{processes};
ghost use Rattle.rules.specs.declared.event.Event.TheVariants.{Store, Clock, Interrupt, SetPriority};
ghost use Rattle.rules.specs.Answers.{asleep_number};
ghost use Rattle.rules.specs.Events.{waiting_set};
ghost use Rattle.layout.specs.Layout.{state_at};
ghost use Rattle.vradomil.specs.Host.{ChangesWords, ChangesTables, WordsTold, TablesTold, Shows, Initialised};

use crate::answer::{number, refusal};
use crate::buffers::judge_buffers;
use arrivals::either;
use changes::{end_due, end_one};
use commands::{thread_index, word_index};
use layout::check::sound;
use layout::{CLOCK_AT, LIST_AT, TABLES_SIZE, WAITING_AT, WORD_SIZE};
use numbers::{put_u32, put_u64, u64_at};
use rules::answer::{Errno, Reason, Refusal};
use tables::{LastAnswer, PROCESSES, State};
use verdicts::{invalid, no_thread, row, verdict_on_priority, verdict_on_store};

// One word is written, and nobody wakes.
pub(crate) fn store(
    tables: &[u8],
    words: &mut [u8],
    process: u8,
    address: u32,
    value: u32,
) -> Result<u32, Refusal>
    ensures told { WordsTold (Store process address value) tables.now words.old result words.new }
    ensures small { IfOk result (λ n. n ≤ asleep_number) }
{
    judge_buffers(tables, words)?;
    verdict_on_store(process, address)?;
    put_u32(words, WORD_SIZE * word_index(process, address), value);
    Ok(0)
}

// A store.
pub fn vradomil_store(tables: &[u8], words: &mut [u8], process: u8, address: u32, value: u32) -> i32
    ensures { ChangesWords (Store process address value) tables.now words.old [] result words.new [] }
{
    number(store(tables, words, process, address, value))
}

// The clock is set, and the sleepers whose deadline has come end.
#[inline(always)]
pub(crate) fn set_clock(tables: &mut [u8], words: &[u8], time: u64) -> Result<u32, Refusal>
    ensures told { TablesTold (Clock time) tables.old words.now result tables.new }
    ensures small { IfOk result (λ n. n ≤ asleep_number) }
{
    judge_buffers(tables, words)?;
    let tables = tables.as_mut_array::<TABLES_SIZE>().unwrap();
    let clock = u64_at(tables, CLOCK_AT);
    invalid(Reason::ClockBack, time < clock)?;
    let n = end_due(tables, time);
    put_u64(tables, CLOCK_AT, time);
    Ok(n)
}

// A clock event.
pub fn vradomil_clock(tables: &mut [u8], words: &[u8], time: u64) -> i32
    ensures { ChangesTables (Clock time) tables.old words.now [] result tables.new [] }
{
    number(set_clock(tables, words, time))
}

// A sleeper ends, if the thread is one.
#[inline(always)]
pub(crate) fn interrupt(
    tables: &mut [u8],
    words: &[u8],
    process: u8,
    index: u8,
) -> Result<u32, Refusal>
    ensures told { TablesTold (Interrupt process index) tables.old words.now result tables.new }
    ensures small { IfOk result (λ n. n ≤ asleep_number) }
{
    let place = judge_buffers(tables, words)?;
    let tables = tables.as_mut_array::<TABLES_SIZE>().unwrap();
    row(Errno::ESRCH, no_thread(process, index))?;
    let t = thread_index(process, index);
    if place[t] == 0 {
        return Ok(0);
    }
    end_one(tables, t, place[t], LastAnswer::Interrupted);
    Ok(1)
}

// An interrupt of a thread.
pub fn vradomil_interrupt(tables: &mut [u8], words: &[u8], process: u8, index: u8) -> i32
    ensures { ChangesTables (Interrupt process index) tables.old words.now [] result tables.new [] }
{
    number(interrupt(tables, words, process, index))
}

// A thread, asleep or not, gets another base priority.
pub(crate) fn set_priority(
    tables: &mut [u8],
    words: &[u8],
    process: u8,
    index: u8,
    priority: u8,
) -> Result<u32, Refusal>
    ensures told { TablesTold (SetPriority process index priority) tables.old words.now result tables.new }
    ensures small { IfOk result (λ n. n ≤ asleep_number) }
{
    judge_buffers(tables, words)?;
    let tables = tables.as_mut_array::<TABLES_SIZE>().unwrap();
    verdict_on_priority(process, index, priority)?;
    changes::set_priority(tables, thread_index(process, index), priority);
    Ok(0)
}

// A set priority.
pub fn vradomil_set_priority(
    tables: &mut [u8],
    words: &[u8],
    process: u8,
    index: u8,
    priority: u8,
) -> i32
    ensures { ChangesTables (SetPriority process index priority) tables.old words.now [] result tables.new [] }
{
    number(set_priority(tables, words, process, index, priority))
}

// The waiting threads of a process, a bit for each. It is called by vradomil_query, for a process that exists.
fn waiting_set(tables: &[u8; TABLES_SIZE], process: usize) -> u8
    requires { process < processes }
    ensures { result ≡ waiting_set process (state_at tables.now) }
{
    let base = WAITING_AT + State::THREADS_PER_PROCESS * process;
    let mut bits = 0;
    for i in 0..State::THREADS_PER_PROCESS {
        bits |= u8::from(tables[base + i] == 1) << i;
    }
    bits
}

// The units of the count and of the lowest thread in the one number of a panel query.
const COUNT_UNIT: u32 = 256;

const LOWEST_UNIT: u32 = 65536;

// A panel query: the waiting set, the count and the lowest thread in one number.
pub fn vradomil_query(tables: &[u8], process: u8) -> u32
    ensures { Shows process tables.now result }
{
    let exists = (process as usize) < PROCESSES;
    let seen = sound(tables).is_some();
    let bits = if seen & exists {
        waiting_set(tables.as_array().unwrap(), process as usize)
    } else {
        0
    };
    u32::from(bits) + COUNT_UNIT * bits.count_ones() + LOWEST_UNIT * bits.trailing_zeros()
}

// Lays down the fresh tables.
pub fn vradomil_fresh(tables: &mut [u8]) -> i32
    ensures { Initialised tables.old result tables.new }
{
    if tables.len() != TABLES_SIZE {
        return refusal(Errno::EBADF);
    }
    // Stays: byte by byte, for by fill the archive would take memset from outside.
    for (i, b) in tables.iter_mut().enumerate() {
        *b = either((LIST_AT <= i) & (i < WAITING_AT), State::NO_ENTRY, 0);
    }
    0
}

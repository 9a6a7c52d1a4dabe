// Refusals: which row of the table of answers refuses an event, or none. It stands on verdicts and tables.
#![tactic(auto, unfolding(rules::specs::Events::refusals))]

ghost use Rattle.std.specs.Prelude.{◌≡◌, get_or};
ghost use Rattle.rules.specs.declared.event.Event.TheVariants.{Call as CallEvent, Store, Clock, Interrupt, SetPriority};
ghost use Rattle.rules.specs.Answers.{first};
ghost use Rattle.rules.specs.Calls.{first_rows};
ghost use Rattle.rules.specs.Events.{refusals};
ghost use Rattle.tables.specs.Tables.{world};

use commands::{thread_index, word_index};
use rules::answer::{Errno, Reason, Refusal};
use rules::event::Call;
use tables::check::tables_ok;
use tables::{State, WORDS};
use verdicts::{invalid, no_thread, row, verdict_on, verdict_on_priority, verdict_on_store};

// The rows of the memory and the tables.
fn tested(s: State, words: &[u32]) -> Result<(), Refusal>
    ensures { result ≡ first (first_rows (world s words.now)) }
{
    row(Errno::ENXIO, words.len() != WORDS)?;
    row(Errno::EBADF, !tables_ok(s))
}

// The word at a place, or 0 past the end of the memory.
// Stays: vradomil has its own on bytes, where a place is always inside; here words may be too few.
fn word_at(words: &[u32], i: usize) -> u32
    ensures { result ≡ get_or words.now i 0 }
{
    words.get(i).copied().unwrap_or(0)
}

pub fn of_call(s: State, words: &[u32], c: Call) -> Result<(), Refusal>
    ensures { result ≡ first (refusals (CallEvent c) (world s words.now)) }
{
    tested(s, words)?;
    let thread = s.threads[thread_index(c.process, c.index)];
    let word = word_at(words, word_index(c.process, c.uaddr));
    verdict_on(c, thread.waiting, s.clock, word)
}

pub fn of_store(
    s: State,
    words: &[u32],
    process: u8,
    address: u32,
    value: u32,
) -> Result<(), Refusal>
    ensures { result ≡ first (refusals (Store process address value) (world s words.now)) }
{
    tested(s, words)?;
    verdict_on_store(process, address)
}

pub fn of_clock(s: State, words: &[u32], time: u64) -> Result<(), Refusal>
    ensures { result ≡ first (refusals (Clock time) (world s words.now)) }
{
    tested(s, words)?;
    invalid(Reason::ClockBack, time < s.clock)
}

pub fn of_interrupt(s: State, words: &[u32], process: u8, index: u8) -> Result<(), Refusal>
    ensures { result ≡ first (refusals (Interrupt process index) (world s words.now)) }
{
    tested(s, words)?;
    row(Errno::ESRCH, no_thread(process, index))
}

pub fn of_priority(
    s: State,
    words: &[u32],
    process: u8,
    index: u8,
    priority: u8,
) -> Result<(), Refusal>
    ensures { result ≡ first (refusals (SetPriority process index priority) (world s words.now)) }
{
    tested(s, words)?;
    verdict_on_priority(process, index, priority)
}

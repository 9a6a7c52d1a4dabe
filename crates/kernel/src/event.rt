// Other events: stores, clock events, interrupts, panel queries and set priorities; and any event.
ghost use Rattle.std.specs.Prelude.{◌≡◌, ◌<◌};
ghost use Rattle.tables.specs.Sizes.{processes};
ghost use Rattle.rules.specs.declared.event.Event.TheVariants.{Store, Clock, Interrupt, SetPriority};
ghost use Rattle.rules.specs.Events.{waiting_set, panel};
ghost use Rattle.kernel.specs.Follows.{Follows};

use crate::call::call;
use crate::refused;
use commands::{thread_index, word_index};
use effects::counted;
use refusals::{of_clock, of_interrupt, of_priority, of_store};
use rules::answer::{Answer, Answered, Panel};
use rules::event::Event;
use tables::check::tables_ok;
use tables::{LastAnswer, PROCESSES, State, THREADS};

// A store: one word is written, and nobody wakes.
pub fn store(s: State, words: &mut [u32], process: u8, address: u32, value: u32) -> Answered
    ensures { Follows (Store process address value) s words.old result words.new }
{
    match of_store(s, words, process, address, value) {
        Err(x) => refused(x, s),
        Ok(()) => {
            words[word_index(process, address)] = value;
            counted(0, s)
        }
    }
}

// A clock event: the clock is set, and the sleepers whose deadline has come end.
pub fn set_clock(s: State, words: &[u32], time: u64) -> Answered
    ensures { Follows (Clock time) s words.now result words.now }
{
    match of_clock(s, words, time) {
        Err(x) => refused(x, s),
        Ok(()) => {
            let taken = s.end_flagged(s.expired(time), LastAnswer::TimedOut);
            let next = State {
                clock: time,
                ..taken.state
            };
            counted(taken.n, next)
        }
    }
}

// An interrupt of a thread: a sleeper ends.
pub fn interrupt(s: State, words: &[u32], process: u8, index: u8) -> Answered
    ensures { Follows (Interrupt process index) s words.now result words.now }
{
    match of_interrupt(s, words, process, index) {
        Err(x) => refused(x, s),
        Ok(()) => {
            let t = thread_index(process, index);
            let mut flags = [false; THREADS];
            flags[t] = true;
            let taken = s.end_flagged(flags, LastAnswer::Interrupted);
            counted(taken.n, taken.state)
        }
    }
}

// The waiting threads of a process, a bit for each. It is called by query, for a process that exists.
#[tactic(auto, unfolding(rules::specs::Events::bits_below, rules::specs::Events::waiting_in))]
fn waiting_set(s: State, process: usize) -> u8
    requires { process < processes }
    ensures { result ≡ waiting_set process s }
{
    let base = State::THREADS_PER_PROCESS * process;
    let mut bits = 0;
    for i in 0..State::THREADS_PER_PROCESS {
        bits |= u8::from(s.threads[base + i].waiting) << i;
    }
    bits
}

// A panel query: the waiting threads of a process, how many they are, and the lowest.
#[tactic(auto, unfolding(rules::specs::Events::panel_in))]
pub fn query(s: State, process: u8) -> Panel
    ensures { result ≡ panel process s }
{
    let sound = tables_ok(s);
    let exists = (process as usize) < PROCESSES;
    let bits = if sound & exists {
        waiting_set(s, process as usize)
    } else {
        0
    };
    Panel {
        waiting: bits,
        count: bits.count_ones(),
        lowest: bits.trailing_zeros(),
    }
}

// A thread, asleep or not, gets another base priority.
pub fn set_priority(s: State, words: &[u32], process: u8, index: u8, priority: u8) -> Answered
    ensures { Follows (SetPriority process index priority) s words.now result words.now }
{
    match of_priority(s, words, process, index, priority) {
        Err(x) => refused(x, s),
        Ok(()) => {
            let t = thread_index(process, index);
            counted(0, s.set_priority(t, priority))
        }
    }
}

// Any event, for hosts and replays.
pub fn apply(s: State, words: &mut [u32], e: Event) -> Answered
    ensures { Follows e s words.old result words.new }
{
    match e {
        Event::Call(c) => call(s, words, c),
        Event::Store {
            process,
            address,
            value,
        } => store(s, words, process, address, value),
        Event::Clock { time } => set_clock(s, words, time),
        Event::Interrupt { process, index } => interrupt(s, words, process, index),
        Event::Query { process } => Answered {
            answer: Answer::Waiting(query(s, process)),
            state: s,
        },
        Event::SetPriority {
            process,
            index,
            priority,
        } => set_priority(s, words, process, index, priority),
    }
}

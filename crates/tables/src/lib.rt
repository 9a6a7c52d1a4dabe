// Tables: what the kernel keeps, a clock, a record for each thread and the arrival list with its count; their rules and changes. It stands on arrivals.
#![tactic(auto)]

ghost use Rattle.std.specs.Prelude.{◌≡◌, true, false, ◌++◌, ◌+◌, ◌≤◌, ◌<◌, length, is_some, unwrap_or};
ghost use Rattle.tables.specs.Sizes.{threads};
ghost use Rattle.tables.specs.Tables.{fresh_thread, stored_deadline, with_sleep, with_last, ended, moved_to, with_priority, asleep_at, expired, thread_of, arrivals, fresh, change, with_threads, fall_asleep, end_sleeps, move_sleeps, set_priority, tables_ok};
ghost use Rattle.tables.specs.Steps.{changed_by, Numbers, Flags, flagged, end_flagged, Taking};

pub mod check;

pub use arrivals::{PROCESSES, THREADS};
use arrivals::{Split, index_of, relisted, split_by};

pub const WORDS: usize = PROCESSES * State::WORDS_PER_PROCESS;

pub const WORD_BYTES: u32 = 4;

// Every address of a process is below this, and a multiple of WORD_BYTES.
pub const PROCESS_BYTES: u32 = WORD_BYTES * (State::WORDS_PER_PROCESS as u32);

// The highest base priority of a thread.
pub const MAX_PRIORITY: u8 = 31;

// How a thread's last ended sleep was answered; no other value can be held.
#[derive(Clone, Copy, Debug, PartialEq, Eq)]
pub enum LastAnswer {
    NoneYet,
    Woken,
    TimedOut,
    Interrupted,
}

// A thread record: running or waiting; the word's address, the waiter's mask, whether it has a deadline and the deadline; the answer of
// its last ended sleep; and its base priority.
// Stays: two flags with values beside them, and a count beside the list: the table rules (specs/Tables.antt, running_ok, deadline_ok and
// tail_ok) speak of records and tables that break them, and tables_ok is handed such.
#[derive(Clone, Copy, Debug, PartialEq, Eq)]
pub struct Thread {
    pub waiting: bool,
    pub uaddr: u32,
    pub bitset: u32,
    pub timed: bool,
    pub deadline: u64,
    pub last: LastAnswer,
    pub priority: u8,
}

// The tables: a clock in nanoseconds, a record for each thread, and the arrival list with its count.
#[derive(Clone, Copy, Debug, PartialEq, Eq)]
pub struct State {
    pub clock: u64,
    pub threads: [Thread; THREADS],
    pub list: [u8; THREADS],
    pub count: usize,
}

// What happens to a sleeper: its sleep ends with an answer, or it moves to another address.
#[derive(Clone, Copy, Debug, PartialEq, Eq)]
pub enum Change {
    End(LastAnswer),
    MoveTo(u32),
}

// A sleep: the word's address, the waiter's mask, and the deadline where it has one.
#[derive(Clone, Copy, Debug, PartialEq, Eq)]
pub struct Sleep {
    pub uaddr: u32,
    pub bitset: u32,
    pub deadline: Option<u64>,
}

impl Sleep {
    // What a record holds that does not wait.
    pub const NONE: Self = Self {
        uaddr: 0,
        bitset: 0,
        deadline: None,
    };

    // "no deadline with 0 stored"
    pub fn stored_deadline(self) -> u64
        ensures { result ≡ stored_deadline (is_some self.deadline) (unwrap_or self.deadline 0) }
    {
        self.deadline.unwrap_or(0)
    }
}

impl Thread {
    pub fn fresh() -> Self
        ensures { result ≡ fresh_thread }
    {
        Self {
            waiting: false,
            uaddr: 0,
            bitset: 0,
            timed: false,
            deadline: 0,
            last: LastAnswer::NoneYet,
            priority: 0,
        }
    }

    // Another sleep; whatever else the record holds stays.
    // Stays: `waiting` beside the sleep. As an Option<Sleep> the two would be taken apart again for five fields that the record holds in both
    // cases, with Sleep::NONE for None.
    fn with_sleep(mut self, waiting: bool, sleep: Sleep) -> Self
        ensures { result ≡ with_sleep waiting sleep.uaddr sleep.bitset (is_some sleep.deadline) (stored_deadline (is_some sleep.deadline) (unwrap_or sleep.deadline 0)) self }
    {
        self.waiting = waiting;
        self.uaddr = sleep.uaddr;
        self.bitset = sleep.bitset;
        self.timed = sleep.deadline.is_some();
        self.deadline = sleep.stored_deadline();
        self
    }

    // Stays: with_last, with_priority and moved_to differ in the field alone; one function for them would take a closure that stores it.
    fn with_last(mut self, last: LastAnswer) -> Self
        ensures { result ≡ with_last last self }
    {
        self.last = last;
        self
    }

    fn with_priority(mut self, priority: u8) -> Self
        ensures { result ≡ with_priority priority self }
    {
        self.priority = priority;
        self
    }

    // The sleep is over, with this answer.
    fn ended(self, last: LastAnswer) -> Self
        ensures { result ≡ ended last self }
    {
        self.with_sleep(false, Sleep::NONE).with_last(last)
    }

    fn moved_to(mut self, to: u32) -> Self
        ensures { result ≡ moved_to to self }
    {
        self.uaddr = to;
        self
    }

    fn changed(self, how: Change) -> Self
        ensures { result ≡ changed_by how self }
    {
        match how {
            Change::End(last) => self.ended(last),
            Change::MoveTo(uaddr) => self.moved_to(uaddr),
        }
    }

    // The record of a sleeper; the answer of its last ended sleep stays.
    pub fn asleep_at(self, sleep: Sleep) -> Self
        ensures { result ≡ asleep_at sleep.uaddr sleep.bitset (is_some sleep.deadline) (unwrap_or sleep.deadline 0) self }
    {
        self.with_sleep(true, sleep)
    }

    pub fn has_expired(self, now: u64) -> bool
        ensures { result ≡ expired now self }
    {
        self.waiting && self.timed && self.deadline <= now
    }
}

// Tables after a change, and how many sleepers it took.
#[derive(Clone, Copy, Debug, PartialEq, Eq)]
pub struct Taken {
    pub state: State,
    pub n: u32,
}

impl State {
    pub const THREADS_PER_PROCESS: usize = arrivals::THREADS_PER_PROCESS;

    pub const WORDS_PER_PROCESS: usize = 1024;

    // The entry of the arrival list that names no thread.
    pub const NO_ENTRY: u8 = arrivals::NO_ENTRY;

    #[tactic(auto, unfolding(crate::specs::Tables::fresh_in))]
    pub fn fresh() -> Self
        ensures { result ≡ fresh }
    {
        Self {
            clock: 0,
            threads: [Thread::fresh(); THREADS],
            list: [Self::NO_ENTRY; THREADS],
            count: 0,
        }
    }

    // The arrival list: the entries that are counted.
    pub fn arrivals(&self) -> &[u8]
        requires { self.now.count ≤ threads }
        ensures { result.now ≡ arrivals self.now }
    {
        &self.list[..self.count]
    }

    // The records of the threads ts changed.
    fn changed(mut self, ts: &[u8], how: Change) -> Self
        requires { Numbers ts.now (length ts.now) }
        ensures { result ≡ with_threads (change (changed_by how) ts.now self.threads) self }
    {
        for &t in ts {
            let x = index_of(t);
            self.threads[x] = self.threads[x].changed(how);
        }
        self
    }

    // The sleepers whose flag is set end their sleep with the answer. The kernel calls it on tables that keep the rules.
    // Stays: `tables_ok` in the requires of this, take and fall_asleep is no invariant of a type: a sleep or a move to any address is promised
    // in full, and tables with an address that breaks the rules would be no value of it.
    pub fn end_flagged(self, flags: [bool; THREADS], last: LastAnswer) -> Taken
        requires { tables_ok self ≡ true }
        ensures { result ≡ end_flagged last (flagged flags) self }
    {
        let Split {
            left,
            count,
            taken,
            n,
        } = split_by(self.arrivals(), flags);
        let mut state = self.changed(&taken[..n], Change::End(last));
        state.list = left;
        state.count = count;
        Taken { state, n: n as u32 }
    }

    // Some threads end their sleep with the answer, others move to the address and to the end of the list; place says where each thread
    // stands in it. The kernel calls it on tables that keep the rules.
    pub fn take(
        self,
        place: [u8; THREADS],
        ended: &[u8],
        last: LastAnswer,
        moved: &[u8],
        uaddr: u32,
    ) -> Self
        requires { (tables_ok self ≡ true) × Taking place (ended.now ++ moved.now) (length ended.now + length moved.now) self }
        ensures { result ≡ move_sleeps uaddr moved.now (end_sleeps last ended.now self) }
    {
        let list = relisted(self.list, self.count, place, ended, moved);
        let mut state = self
            .changed(ended, Change::End(last))
            .changed(moved, Change::MoveTo(uaddr));
        state.list = list;
        state.count -= ended.len();
        state
    }

    // A running thread sleeps, and joins the end of the list, where there is room, since it is not there yet. The kernel calls it for a
    // caller that is not waiting.
    pub fn fall_asleep(mut self, t: usize, sleep: Sleep) -> Self
        requires { (tables_ok self ≡ true) × ((t < threads) × ((thread_of self t).waiting ≡ false)) }
        ensures { result ≡ fall_asleep (asleep_at sleep.uaddr sleep.bitset (is_some sleep.deadline) (unwrap_or sleep.deadline 0)) t self }
    {
        self.threads[t] = self.threads[t].asleep_at(sleep);
        self.list[self.count] = t as u8;
        self.count += 1;
        self
    }

    // A thread, asleep or not, has another base priority.
    // Stays: that an index names a thread is asked here, in fall_asleep and in changes: a type of such indices would be made of a number at
    // each call and be the number again at each store.
    pub fn set_priority(mut self, t: usize, priority: u8) -> Self
        requires { t < threads }
        ensures { result ≡ set_priority priority t self }
    {
        self.threads[t] = self.threads[t].with_priority(priority);
        self
    }

    // Whose deadline has come.
    pub fn expired(self, now: u64) -> [bool; THREADS]
        ensures { Flags result (λ t. expired now (thread_of self t)) }
    {
        self.threads.map(|t| t.has_expired(now))
    }
}

// The table rules, on the bytes where they lie, in loops without a branch.
ghost use Rattle.std.specs.Prelude.{◌≡◌, ◌&&◌, ◌+◌, ◌*◌, ◌≤◌, take, drop, eqb};
ghost use Rattle.lists.specs.Lists.{all, every_below, count_below};
ghost use Rattle.tables.specs.Sizes.{threads, no_entry, word_limit};
ghost use Rattle.layout.specs.Layout.{list_at, state_at};
ghost use Rattle.layout.specs.Check.{flags_fit, agrees, waits, place_fits, time_ok, time_fits, Checked};

use crate::{
    BITSET_AT, CLOCK_AT, COUNT_AT, DEADLINE_AT, LAST_AT, LIST_AT, PRIORITY_AT, TABLES_SIZE,
    TIME_SIZE, TIMED_AT, UADDR_AT, WAITING_AT, WORD_SIZE,
};
use arrivals::{either, places_in};
use numbers::{u32_at, u64_at};
use tables::{MAX_PRIORITY, PROCESS_BYTES, State, THREADS, WORD_BYTES};

// No greater byte stands for a last answer.
const MAX_LAST: u8 = 3;

// What the high half of a time counts.
const HIGH: u64 = 1 << 32;

// The flags of each thread stand for something, none but a sleeper has a deadline, no priority is above the highest, those wait that have
// a place in the list, and as many as the list counts.
// Stays: count is no length of place, but what the number of sleepers is held to.
fn flags_ok(b: &[u8; TABLES_SIZE], place: [u8; THREADS], count: usize) -> bool
    ensures { result ≡ (every_below threads (λ i. flags_fit b.now i && agrees place b.now i) && eqb (count_below threads (waits b.now)) count) }
{
    let mut ok = true;
    let mut n: u8 = 0;
    for i in 0..THREADS {
        let waiting = b[WAITING_AT + i];
        let asleep = waiting == 1;
        ok &= (waiting <= 1)
            & (b[TIMED_AT + i] <= waiting)
            & (b[LAST_AT + i] <= MAX_LAST)
            & (b[PRIORITY_AT + i] <= MAX_PRIORITY)
            & ((place[i] != 0) == asleep);
        n += u8::from(asleep);
    }
    ok & (usize::from(n) == count)
}

// A sleeper has an address and a mask, and a running thread has none. The bits of all addresses are gathered, and those of the running
// threads apart, and tested once: each address is aligned and below the limit, a power of two, exactly if all bits together are.
fn places_ok(b: &[u8; TABLES_SIZE]) -> bool
    ensures { result ≡ every_below threads (place_fits b.now) }
{
    let mut all: u32 = 0;
    let mut stray: u32 = 0;
    let mut ok = true;
    for i in 0..THREADS {
        let waits = b[WAITING_AT + i] == 1;
        let uaddr = u32_at(b, UADDR_AT + WORD_SIZE * i);
        let bitset = u32_at(b, BITSET_AT + WORD_SIZE * i);
        all |= uaddr;
        stray |= either(waits, 0, uaddr);
        ok &= (bitset != 0) == waits;
    }
    ok & (stray == 0) & (all % WORD_BYTES == 0) & (all < PROCESS_BYTES)
}

// The entries past the count name no thread. It is called after the test of the count.
// Stays: by arrivals::tail_ok an event with few sleepers takes 37 % more instructions, and 12 % by a fold over the entries past the count; here
// all are looked at, with a counter of a byte (by one that is the index, too, 13 %).
fn tail_ok(b: &[u8; TABLES_SIZE], count: usize) -> bool
    requires { count ≤ threads }
    ensures { result ≡ all (λ e. eqb e no_entry) (drop count (take threads (drop list_at b.now))) }
{
    let end = count as u8;
    let mut ok = true;
    let mut k: u8 = 0;
    for &e in &b[LIST_AT..WAITING_AT] {
        ok &= (k < end) | (e == State::NO_ENTRY);
        k += 1;
    }
    ok
}

// A deadline is later than the time; where there is none, 0 is stored. Both come in halves, because a processor compares many numbers of 32
// bits at once, and not of 64.
fn time_ok(timed: bool, dlow: u32, dhigh: u32, low: u32, high: u32) -> bool
    ensures { result ≡ time_ok (low + word_limit * high) timed (dlow + word_limit * dhigh) }
{
    let later = (high < dhigh) | ((high == dhigh) & (low < dlow));
    let stored = (dlow != 0) | (dhigh != 0);
    (later == timed) & (stored == timed)
}

fn times_ok(b: &[u8; TABLES_SIZE], time: u64) -> bool
    ensures { result ≡ every_below threads (time_fits time b.now) }
{
    let low = (time % HIGH) as u32;
    let high = (time / HIGH) as u32;
    let mut ok = true;
    for i in 0..THREADS {
        let timed = b[TIMED_AT + i] == 1;
        let dlow = u32_at(b, DEADLINE_AT + TIME_SIZE * i);
        let dhigh = u32_at(b, DEADLINE_AT + TIME_SIZE * i + WORD_SIZE);
        ok &= time_ok(timed, dlow, dhigh, low, high);
    }
    ok
}

// The passes over the bytes behind the arrival list. Not inlined, for the branch that makes an Option would bring one after each pass.
#[inline(never)]
fn rows_ok(b: &[u8; TABLES_SIZE], place: &[u8; THREADS], count: usize) -> bool
    requires { count ≤ threads }
    ensures { result ≡ (all (λ e. eqb e no_entry) (drop count (take threads (drop list_at b.now))) && every_below threads (place_fits b.now) && every_below threads (time_fits (state_at b.now).clock b.now) && (every_below threads (λ i. flags_fit b.now i && agrees place.now b.now i) && eqb (count_below threads (waits b.now)) count)) }
{
    let tail = tail_ok(b, count);
    let places = places_ok(b);
    let clock = u64_at(b, CLOCK_AT);
    let times = times_ok(b, clock);
    let flags = flags_ok(b, *place, count);
    tail & places & times & flags
}

// The check of the bytes: where each thread stands in the arrival list, if they stand for tables that keep the table rules.
pub fn sound(b: &[u8]) -> Option<[u8; THREADS]>
    ensures { Checked b.now result }
{
    let b: &[u8; TABLES_SIZE] = b.as_array()?;
    let count = u64_at(b, COUNT_AT) as usize;
    if THREADS < count {
        return None;
    }
    let place = places_in(&b[LIST_AT..LIST_AT + count])?;
    rows_ok(b, &place, count).then_some(place)
}
